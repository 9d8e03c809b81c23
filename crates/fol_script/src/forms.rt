//! The words that have a meaning, and what stands behind each.

ghost use Rattle.std.specs.Prelude.{◌≡◌, Option, Some, None, IfSome};
ghost use Rattle.fol_model.specs.TextCauses.{form_of};
ghost use Rattle.std.specs.Option.{option_map};
ghost use Rattle.fol_model.specs.TextForms as spec;
ghost use Rattle.fol_script.specs.Letters.{likely};

use crate::printing::spelling;
use fol_model::{Field, Keyword, TextKind};

const CHUNK: Field = Field::Number {
    low: -1_000_000,
    high: 1_000_000,
};

const SIDE: Field = Field::Number {
    low: -16_000_000,
    high: 16_000_015,
};

const HEIGHT: Field = Field::Number { low: 0, high: 255 };

const BLOCK: Field = Field::Number {
    low: 0,
    high: 65_535,
};

const SPEED: Field = Field::Number { low: -16, high: 16 };

const DELAY: Field = Field::Number {
    low: 1,
    high: 1_000_000,
};

const ENTITY: Field = Field::Number {
    low: 1,
    high: 1_000_000_000,
};

const SET: &[Field] = &[SIDE, HEIGHT, SIDE, BLOCK];

const COPY: &[Field] = &[SIDE, HEIGHT, SIDE, SIDE, HEIGHT, SIDE];

const LOAD: &[Field] = &[CHUNK, CHUNK];

const POST: &[Field] = &[CHUNK, CHUNK, DELAY, Field::Action];

const SEND: &[Field] = &[ENTITY, SIDE, HEIGHT, SIDE];

/// The only key that a word can be, by its first letter and its length.
fn likely_key(word: &[u8]) -> Keyword
    ensures { result ≡ likely word.now }
{
    let [first, ..] = word else {
        return Keyword::Arrive;
    };
    match *first {
        b'b' => Keyword::Block,
        b'c' => Keyword::Copy,
        b'e' => match word.len() {
            3 => Keyword::End,
            5 => Keyword::Every,
            _ => Keyword::Entity,
        },
        b'g' => Keyword::Grid,
        b'l' => Keyword::Load,
        b'p' => Keyword::Post,
        b'r' => Keyword::Run,
        b's' => {
            if word.len() == 3 {
                Keyword::Set
            } else {
                Keyword::Send
            }
        }
        b'u' => Keyword::Unload,
        b'w' => Keyword::World,
        _ => Keyword::Arrive,
    }
}

/// The key that a word is.
pub fn key_of(word: &[u8]) -> Option<Keyword>
    ensures { result ≡ spec.key_of word.now }
{
    let key = likely_key(word);
    if word == spelling(key) {
        Some(key)
    } else {
        None
    }
}

/// What follows an action word; none where it is no action word.
pub fn action_form(key: Keyword) -> Option<&'static [Field]>
    ensures { option_map (λ p. p.now) result ≡ spec.action_form key }
{
    match key {
        Keyword::Set => Some(SET),
        Keyword::Copy => Some(COPY),
        Keyword::Load | Keyword::Unload => Some(LOAD),
        Keyword::Post => Some(POST),
        Keyword::Send => Some(SEND),
        _ => None,
    }
}

/// The key of an action word, and what follows it.
pub fn action_of(word: &[u8]) -> Option<(Keyword, &'static [Field])>
    ensures form { option_map (λ x. x.1.now) result
        ≡ form_of spec.action_form (spec.key_of word.now) }
    ensures key { IfSome result (λ x. spec.key_of word.now ≡ Some x.0) }
{
    match key_of(word) {
        None => None,
        Some(key) => match action_form(key) {
            None => None,
            Some(form) => Some((key, form)),
        },
    }
}

const VERSION: &[Field] = &[Field::Number { low: 1, high: 2 }];

const GRID: &[Field] = &[
    Field::Number { low: 0, high: 5 },
    Field::Number { low: 1, high: 8 },
    Field::Number { low: 1, high: 4 },
    Field::Number {
        low: 1,
        high: 16_384,
    },
    Field::Number {
        low: 0,
        high: 1_000,
    },
    Field::Number {
        low: 1,
        high: 1_000,
    },
];

const STANDING: &[Field] = &[ENTITY, SIDE, HEIGHT, SIDE, SPEED, SPEED];

const EVERY: &[Field] = &[
    CHUNK,
    CHUNK,
    DELAY,
    DELAY,
    Field::Number {
        low: 1,
        high: 10_000,
    },
    Field::Action,
];

const TICKS: &[Field] = &[Field::Number {
    low: 1,
    high: 10_000,
}];

/// What follows a line word; none where it is no line word of this text.
pub fn line_form(kind: TextKind, key: Keyword) -> Option<&'static [Field]>
    ensures { option_map (λ p. p.now) result ≡ spec.line_form kind key }
{
    match (kind, key) {
        (TextKind::World, Keyword::World) => Some(VERSION),
        (TextKind::World, Keyword::Grid) => Some(GRID),
        (TextKind::World, Keyword::Block) => Some(SET),
        (TextKind::World, Keyword::Entity) => Some(STANDING),
        (TextKind::World, _) => None,
        (TextKind::ScriptOne, Keyword::Every) => None,
        (_, Keyword::Load | Keyword::Unload) => Some(LOAD),
        (_, Keyword::Post) => Some(POST),
        (_, Keyword::Every) => Some(EVERY),
        (_, Keyword::Run) => Some(TICKS),
        (_, Keyword::End) => Some(&[]),
        (_, _) => None,
    }
}
