// A call: the words of a line, with values among them.

use object_heap::Value;
use st_base::OutOfMemory;
use std::alloc::Global;

/// The words of a call.
#[derive(Drop)]
pub struct Call<'a> {
    words: Vec<&'a str>,
}

impl<'a> Call<'a> {
    pub fn new(alloc: Global, text: &'a str) -> Result<Call<'a>, OutOfMemory> {
        let mut words = Vec::new(alloc);
        for word in text.split_whitespace() {
            words.push(word)?;
        }
        Ok(Call { words })
    }

    /// A word by its place, or an empty one.
    pub fn word(&self, at: usize) -> &'a str {
        match self.words.get(at) {
            Some(word) => *word,
            None => "",
        }
    }

    /// A number by its place, or 0.
    pub fn number(&self, at: usize) -> u32 {
        self.word(at).parse::<u32>().unwrap_or(0)
    }

    /// The number of an activation by its place, or 0.
    pub fn activation(&self, at: usize) -> u64 {
        self.number(at) as u64
    }

    /// A number by its place, or none.
    pub fn option(&self, at: usize) -> Option<u32> {
        self.word(at).parse::<u32>().ok()
    }

    pub fn value(&self, at: usize) -> Value {
        value_of(self.word(at))
    }

    /// The values from a place up to a word that is a stroke, or to the end.
    pub fn values(&self, alloc: Global, from: usize) -> Result<Vec<Value>, OutOfMemory> {
        let mut values = Vec::new(alloc);
        for word in self.words.iter().skip(from) {
            if *word == "/" {
                return Ok(values);
            }
            values.push(value_of(*word))?;
        }
        Ok(values)
    }

    /// The values behind the stroke.
    pub fn given(&self, alloc: Global) -> Result<Vec<Value>, OutOfMemory> {
        let mut at = 0usize;
        for word in &self.words {
            at = at.saturating_add(1);
            if *word == "/" {
                return self.values(alloc, at);
            }
        }
        Ok(Vec::new(alloc))
    }
}

// The value that a word names. Any other word is nil.
fn value_of(word: &str) -> Value {
    match word {
        "True" => Value::True,
        "False" => Value::False,
        "Transcript" => Value::Transcript,
        _ => numbered_value(word),
    }
}

// A value by its number: `Integer(3)`.
fn numbered_value(word: &str) -> Value {
    let (kind, rest) = word.split_once('(').unwrap_or(("", ""));
    let text = rest.strip_suffix(')').unwrap_or("");
    let number = text.parse::<u32>().unwrap_or(0);
    match kind {
        "Integer" => Value::Integer(text.parse::<i128>().unwrap_or(0)),
        "Character" => Value::Character(text.parse::<u8>().unwrap_or(0)),
        "Symbol" => Value::Symbol(number),
        "Class" => Value::Class(number),
        "Meta" => Value::Meta(number),
        "Object" => Value::Object(number),
        _ => Value::Nil,
    }
}
