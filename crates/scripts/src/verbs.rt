// The words with which calls begin.
ghost use Rattle.std.specs.Prelude.{◌≡◌};
ghost use Rattle.std.specs.Str.{bytes_eq};
ghost use Rattle.scripts.specs.Lines.{verb_named};

#[derive(Clone, Copy, Debug, PartialEq, Eq)]
pub(crate) enum Verb {
    Compile,
    Union,
    Sequence,
    Star,
    Install,
    Forward,
}

pub(crate) fn is(said: &[u8], name: &str) -> bool
    ensures { result ≡ bytes_eq said.now name.now }
{
    said == name.as_bytes()
}

impl Verb {
    // A chain, since a match on so many texts is not proved.
    pub(crate) fn named(said: &[u8]) -> Option<Verb>
        ensures { result ≡ verb_named said.now }
    {
        if is(said, "compile") {
            Some(Verb::Compile)
        } else if is(said, "union") {
            Some(Verb::Union)
        } else if is(said, "sequence") {
            Some(Verb::Sequence)
        } else if is(said, "star") {
            Some(Verb::Star)
        } else if is(said, "install") {
            Some(Verb::Install)
        } else if is(said, "forward") {
            Some(Verb::Forward)
        } else {
            None
        }
    }
}
