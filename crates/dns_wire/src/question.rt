//! Questions.
use dns_name::Name;
use enum_base::List;

/// A question (RFC 1035, 4.1.2): which records of a name are asked for.
#[derive(Clone, Copy, Debug, Drop, PartialEq, Eq)]
pub struct Question {
    pub name: Name,
    pub kind: u16,
    pub class: u16,
}

/// A list of questions.
pub type Questions = List<Question>;
