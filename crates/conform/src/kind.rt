// The kinds of books that commands name.
use crate::failure::Failure;
use std::str::FromStr;

#[derive(Clone, Copy, Debug, PartialEq, Eq)]
pub enum Kind {
    Site,
    Rule,
    Wish,
}

impl FromStr for Kind {
    type Err = Failure;

    fn from_str(word: &str) -> Result<Kind, Failure> {
        match word {
            "site" => Ok(Kind::Site),
            "rule" => Ok(Kind::Rule),
            "wish" => Ok(Kind::Wish),
            _ => Err(Failure::Unknown),
        }
    }
}
