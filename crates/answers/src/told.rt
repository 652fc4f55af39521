// What an answer tells, by value: cells, each a word of its question and a value behind it, and an ending.
ghost use Rattle.std.specs.Prelude.{◌≡◌, ◌<◌, [], ◌∷◌, ◌++◌, length, MatchOption};
ghost use Rattle.answers.specs.declared.told.Value.TheVariants.{Nothing, Unset, Flag, Count, Integer, Float, Tag};
ghost use Rattle.answers.specs.declared.told.Value.TheVariants.{Range as RangeIs, Language as LanguageIs};
ghost use Rattle.answers.specs.Cells.{OneMore};

use bodies_rules::Range;
use fields_rules::{Language, TagValue};
use refusals::Refusal;
use std::marker::Model;

// The longest answer, a video track, has 28 cells; a cell more than fits would be left out.
const ROOM: usize = 32;

// What follows the cells.
#[derive(Clone, Copy)]
pub enum Ending {
    Nothing,
    // How many rows the table has, and each row.
    Rows(u64),
    // How many rows the table has.
    Rest(u64),
    Refused(Refusal),
    // The refusal of a call that was to write the table.
    Unread(Refusal),
}

// What stands behind a word.
#[derive(Clone, Copy)]
pub enum Value {
    Nothing,
    Unset,
    Flag(bool),
    Count(u64),
    Integer(i64),
    Float(f64),
    Id(u32),
    Range(Range),
    Language(Language),
    Tag(TagValue),
    // The bytes that the call returned.
    Bytes,
    // The bytes that the call returned, behind where they lie.
    RangeBytes(Range),
}

impl From<bool> for Value {
    ghost from_gives = { λ x v. v ≡ Flag x };

    fn from(flag: bool) -> Value {
        Value::Flag(flag)
    }
}

impl From<u64> for Value {
    ghost from_gives = { λ x v. v ≡ Count x };

    fn from(count: u64) -> Value {
        Value::Count(count)
    }
}

impl From<i64> for Value {
    ghost from_gives = { λ x v. v ≡ Integer x };

    fn from(number: i64) -> Value {
        Value::Integer(number)
    }
}

impl From<f64> for Value {
    ghost from_gives = { λ x v. v ≡ Float x };

    fn from(number: f64) -> Value {
        Value::Float(number)
    }
}

impl From<Range> for Value {
    ghost from_gives = { λ x v. v ≡ RangeIs x };

    fn from(range: Range) -> Value {
        Value::Range(range)
    }
}

impl From<Language> for Value {
    ghost from_gives = { λ x v. v ≡ LanguageIs x };

    fn from(language: Language) -> Value {
        Value::Language(language)
    }
}

impl From<TagValue> for Value {
    ghost from_gives = { λ x v. v ≡ Tag x };

    fn from(value: TagValue) -> Value {
        Value::Tag(value)
    }
}

impl<T: Into<Value>> From<Option<T>> for Value {
    ghost from_gives = { λ x v. MatchOption x (v ≡ Unset) (λ y. T.converts y v) };

    fn from(value: Option<T>) -> Value {
        match value {
            None => Value::Unset,
            Some(value) => value.into(),
        }
    }
}

// A word, by its place among the words of the answer, and the value behind it.
#[derive(Clone, Copy)]
pub struct Cell {
    pub word: u64,
    pub value: Value,
}

#[derive(Clone, Copy)]
pub struct Told {
    cells: [Cell; ROOM],
    count: usize,
    ending: Ending,
}

impl Model for Told {
    ghost use Rattle.std.specs.Prelude.{List, ◌≡◌, ◌-◌, ◌≤◌, ◌++◌, length, take, drop, replicate};
    ghost use Rattle.std.proofs.Common.{sym, ap, subst, ◌∙◌, length-take-le, take-append-drop};
    ghost use Rattle.answers.specs.declared.told.Cell.{Cell};
    ghost use Rattle.answers.specs.declared.told.Ending.{Ending};
    ghost use Rattle.answers.specs.declared.told.Value.TheVariants.{Nothing};

    ghost Value = { List Cell × Ending };

    ghost view = { λ t. (take t.count t.cells, t.ending) };

    // Behind the cells that were told the others are as `new` wrote them.
    ghost invariant = { λ t.
        (t.count ≤ 32) × (length t.cells ≡ 32)
        × (drop t.count t.cells ≡ replicate (32 - t.count) (record { word = 0; value = Nothing })) };

    ghost inverse = { λ d. record {
      cells = d.0 ++ replicate (32 - length d.0) (record { word = 0; value = Nothing });
      count = length d.0;
      ending = d.1;
    } };

    ghost inverse_ok = { λ t h i.
        let counted = length-take-le t.count t.cells (subst (λ n. t.count ≤ n) (sym h.1) h.0) in
        record {
          cells =
              (ap (λ n. take t.count t.cells ++ replicate (32 - n) (record { word = 0; value = Nothing })) counted
              ∙ ap (λ rest. take t.count t.cells ++ rest) (sym h.2)
              ∙ take-append-drop t.count t.cells) i;
          count = counted i;
          ending = t.ending;
        } };
}

impl Told {
    // No cell yet.
    pub fn new(ending: Ending) -> Told
        ensures { result ≡ ([], ending) }
    {
        let none = Cell {
            word: 0,
            value: Value::Nothing,
        };
        Told {
            cells: [none; ROOM],
            count: 0,
            ending,
        }
    }

    pub fn cells(&self) -> &[Cell]
        ensures { result.now ≡ self.now.0 }
    {
        &self.cells[..self.count]
    }

    pub fn ending(&self) -> Ending
        ensures { result ≡ self.now.1 }
    {
        self.ending
    }

    // One cell more.
    pub fn with<V: Into<Value>>(self, word: u64, value: V) -> Told
        ensures { OneMore V.converts word value self result }
    {
        let value = value.into();
        let mut told = self;
        if told.count < ROOM {
            told.cells[told.count] = Cell { word, value };
            told.count += 1;
        }
        told
    }

    // A word alone.
    pub fn word(self, word: u64) -> Told
        ensures { length self.0 < 32 → result ≡ (self.0 ++ record { word = word; value = Nothing } ∷ [], self.1) }
    {
        self.with(word, Value::Nothing)
    }
}
