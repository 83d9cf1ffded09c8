//! What the program says of itself.

/// The commands with their options, and the exit statuses.
pub(crate) const HELP: &str = "\
usage: enumd resolve enum NUMBER --zones FILE [options]
       enumd resolve snaptr DOMAIN --zones FILE [options]
       enumd resolve unaptr DOMAIN --zones FILE [options]
       enumd show
       enumd --help
       enumd --version

enumd resolves telephone numbers to URIs by the rules of zones (ENUM, RFC 6116),
and domains to servers and URIs of a service (S-NAPTR, RFC 3958; U-NAPTR, RFC
4848). It also prints messages of DNS.

Commands:
  resolve enum NUMBER
  resolve snaptr DOMAIN
  resolve unaptr DOMAIN
      prints one line for each end of a number, as +442079460148, or a domain,
      as example.com, with the path to it, and last a line with the number of
      ends; or the least loop, where the rules lead round in a circle
  show
      reads a message of DNS (RFC 1035) in hexadecimal from standard input, of
      at most 16 MiB with its blanks, and prints its header, its questions and
      its records, a line each

Options of resolve, in any order:
  --zones FILE  a zone file; 1 to 64 times. The owner of its SOA is the apex of
                its zone, and no two have one. It is read with the root as
                origin up to its first $ORIGIN
  --want LIST   services that are wanted, as sip or email:mailto,web; of a
                domain as sip+d2t or lost:https
  --apex NAME   a domain under which numbers stand (e164.arpa.); enum alone, up to
                8 times. Where it stands more than once, a path has its place,
                from 0, before the ranks

Exit statuses:
  0  done: there is an end or more, or the message was printed
  1  nothing: there is no end
  2  the words are no command
  3  the number, the domain, a list or a name is ill-formed; or a file is
     not there, its text is ill-formed, or its records make no zone; or the
     input is too large, no hexadecimal, or no message
  4  there is a loop
  5  reading a file or the input, or writing the output failed
  6  memory ran out

Lines, faults and examples: the manual page docs/enumd.1.
";

/// The program's name and version.
pub(crate) const VERSION: &str = "enumd 0.1.0\n";
