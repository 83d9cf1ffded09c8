//! Rules as zone text.
ghost use Rattle.std.specs.Prelude.{◌≡◌, ◌≤◌, ◌+◌, ◌*◌, ◌++◌, length, codes, decimal, OnOk, OnErr};
ghost use Rattle.rdata_field.specs.Strings.{quoted};

use crate::rule::Naptr;
use enum_base::{Buffer, Bytes, MemoryFault, Text255};
use rdata_field::quoted;

// Two numbers of at most five digits, three texts of at most 1,022 bytes, a name of at most 1,024, and five spaces.
type RuleText = Buffer<4110>;

impl Naptr {
    ghost use Rattle.naptr_rule.specs.Text.{rule_text};

    /// Appends the six fields as a zone text has them, with one space between them: the two numbers, the three texts in quotes, the
    /// name as it stands. Between quotes `"` and `\` have a `\` before them, and bytes outside 0x20 to 0x7E are `\DDD`.
    pub fn to_text(&self, out: &mut Bytes) -> Result<(), MemoryFault>
        ensures ok { OnOk result (out.new ≡ out.old ++ rule_text self.now) }
        ensures err { OnErr result (out.new ≡ out.old) }
    {
        let mut text = RuleText::new();
        push_number(&mut text, self.order);
        push_number(&mut text, self.preference);
        push_quoted(&mut text, &self.flags);
        push_quoted(&mut text, &self.services);
        push_quoted(&mut text, &self.regexp);
        text.push_slice(self.replacement.text().as_slice());
        out.push_slice(text.as_slice())
    }
}

// A number and a space.
fn push_number(text: &mut RuleText, number: u16)
    requires { length text.old + 6 ≤ 4110 }
    ensures value { text.new ≡ text.old ++ decimal number ++ codes " " }
    ensures size { length text.new ≤ length text.old + 6 }
{
    text.push_number(number);
    text.push(b' ');
}

// A character-string in quotes, and a space.
fn push_quoted(text: &mut RuleText, string: &Text255)
    requires { length text.old + 1023 ≤ 4110 }
    ensures value { text.new ≡ text.old ++ quoted string.now ++ codes " " }
    ensures size { length text.new ≤ length text.old + 1023 }
{
    text.push_slice(quoted(string).as_slice());
    text.push(b' ');
}
