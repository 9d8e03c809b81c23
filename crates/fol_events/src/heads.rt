//! The first words of event lines.

ghost use Rattle.std.specs.Prelude.{◌≡◌};
ghost use Rattle.fol_events.specs.Heads as spec;

/// The first word of an event line.
#[derive(Clone, Copy)]
pub enum Head {
    Load,
    Unload,
    Post,
    Open,
    Begin,
    End,
    Close,
    Finish,
    Stop,
}

/// All of them, those that come often first.
const HEADS: &[Head] = &[
    Head::Begin,
    Head::End,
    Head::Post,
    Head::Load,
    Head::Unload,
    Head::Open,
    Head::Close,
    Head::Finish,
    Head::Stop,
];

/// The spelling of a first word.
fn spelling(head: Head) -> &'static [u8]
    ensures { result.now ≡ spec.head_spelled head }
{
    match head {
        Head::Load => b"load",
        Head::Unload => b"unload",
        Head::Post => b"post",
        Head::Open => b"open",
        Head::Begin => b"begin",
        Head::End => b"end",
        Head::Close => b"close",
        Head::Finish => b"finish",
        Head::Stop => b"stop",
    }
}

/// The first word that a word is.
#[tactic(auto, unfolding(crate::specs::Heads::head_of))]
pub fn head_of(word: &[u8]) -> Option<Head>
    ensures { result ≡ spec.head_of word.now }
{
    HEADS.iter().copied().find(|head| word == spelling(*head))
}
