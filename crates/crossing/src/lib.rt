// The built-in crossing: a three-state site, and the wish "swept and previous train" worth 10.

#![tactic(auto)]

ghost use Rattle.std.specs.Prelude.{◌≡◌};
ghost use Rattle.crossing.specs.Marked.{site_file, wish_file, Marked};

const SITE: [u32; 18] = [
    0x10084003, 0x20000000, 0x300007D0, 0x20000001, 0x300017D0, 0x20000003, 0x300027D0, 0x40010000,
    0x50004000, 0x50004001, 0x40008001, 0x50008001, 0x40011001, 0x50006002, 0x50002001, 0x40008002,
    0x50008000, 0xF0000011,
];

const WISH: [u32; 6] = [
    0x10000001, 0x10000000, 0x50000001, 0x30000200, 0xA0010903, 0xF0000005,
];

// The words of the site book.
#[tactic(auto, using(crate::proofs::Computed::marked))]
pub fn site_words() -> [u32; 18]
    ensures words { result ≡ site_file }
    ensures marked { Marked }
{
    SITE
}

// The words of the wish book.
#[tactic(auto, using(crate::proofs::Computed::marked))]
pub fn wish_words() -> [u32; 6]
    ensures words { result ≡ wish_file }
    ensures marked { Marked }
{
    WISH
}
