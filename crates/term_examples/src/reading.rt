//! Terms, literals and conjuncts read from prefix notation, for worked examples and benches: `put0 L 7`
//! writes 7 at the name 0, `get0/1 i s` reads the place of the name 0 with one index, and `+store`,
//! `-ends` and the like begin a literal. It promises nothing; the tables beside it show what is read.

use rule_terms::{Atom, Conjunct, Literal, Place, StoreTerm, ValueTerm};
use sqlite_items::Items;
use std::alloc::Global;

// What is read so far, from the last word on; of each list the last was read last.
#[derive(Drop)]
struct Reader {
    stores: Vec<StoreTerm>,
    values: Vec<ValueTerm>,
    literals: Vec<Literal>,
}

// A number, and how many indices follow, as in `0/1`.
fn numbered(text: &str) -> Option<(u32, u32)> {
    let (number, count) = text.split_once('/').unwrap_or((text, "0"));
    Some((number.parse::<u32>().ok()?, count.parse::<u32>().ok()?))
}

impl Reader {
    fn place(&mut self, alloc: Global, text: &str) -> Option<Place> {
        let (name, count) = numbered(text)?;
        let mut indices = Items::new(alloc);
        for _ in 0..count {
            indices.push(self.values.pop()?).ok()?;
        }
        Some(Place { name, indices })
    }

    fn word(&mut self, alloc: Global, word: &str) -> Option<()> {
        if let Some(atom) = word.strip_prefix('+') {
            return self.literal(true, atom);
        }
        if let Some(atom) = word.strip_prefix('-') {
            return self.literal(false, atom);
        }
        match word {
            "L" => self.stores.push(StoreTerm::left()).ok(),
            "R" => self.stores.push(StoreTerm::right()).ok(),
            "add" | "sub" | "mul" => self.operator(alloc, word),
            _ => self.term(alloc, word),
        }
    }

    fn operator(&mut self, alloc: Global, word: &str) -> Option<()> {
        let a = self.values.pop()?;
        let b = self.values.pop()?;
        let v = match word {
            "add" => ValueTerm::add(alloc, a, b).ok()?,
            "sub" => ValueTerm::sub(alloc, a, b).ok()?,
            _ => ValueTerm::mul(alloc, a, b).ok()?,
        };
        self.values.push(v).ok()
    }

    fn term(&mut self, alloc: Global, word: &str) -> Option<()> {
        if let Some(k) = word.strip_prefix("run") {
            let s = StoreTerm::run(alloc, numbered(k)?.0, self.stores.pop()?).ok()?;
            return self.stores.push(s).ok();
        }
        if let Some(k) = word.strip_prefix("ev") {
            let v = ValueTerm::ev(alloc, numbered(k)?.0, self.stores.pop()?).ok()?;
            return self.values.push(v).ok();
        }
        if let Some(p) = word.strip_prefix("put") {
            return self.put(alloc, p);
        }
        if let Some(p) = word.strip_prefix("get") {
            let p = self.place(alloc, p)?;
            let v = ValueTerm::get(alloc, p, self.stores.pop()?).ok()?;
            return self.values.push(v).ok();
        }
        self.values
            .push(ValueTerm::num(word.parse::<i64>().ok()?))
            .ok()
    }

    fn put(&mut self, alloc: Global, p: &str) -> Option<()> {
        let s = self.stores.pop()?;
        let p = self.place(alloc, p)?;
        let v = self.values.pop()?;
        let s = StoreTerm::put(alloc, s, p, v).ok()?;
        self.stores.push(s).ok()
    }

    fn literal(&mut self, sign: bool, word: &str) -> Option<()> {
        let atom = match word {
            "store" => Atom::SameStore(self.stores.pop()?, self.stores.pop()?),
            "value" => Atom::SameValue(self.values.pop()?, self.values.pop()?),
            "most" => Atom::AtMost(self.values.pop()?, self.values.pop()?, 0),
            "ends" => Atom::Ends(self.stores.pop()?),
            "names" => Atom::SameName(0, 1),
            _ => {
                let k = word.strip_prefix("holds")?;
                Atom::Holds(numbered(k)?.0, self.stores.pop()?)
            }
        };
        self.literals.push(Literal { sign, atom }).ok()
    }
}

/// The store term that a text begins with.
pub fn store(alloc: Global, text: &str) -> Option<StoreTerm> {
    read(alloc, text)?.stores.pop()
}

/// The value term that a text begins with.
pub fn value(alloc: Global, text: &str) -> Option<ValueTerm> {
    read(alloc, text)?.values.pop()
}

fn read(alloc: Global, text: &str) -> Option<Reader> {
    let mut reader = Reader {
        stores: Vec::new(alloc),
        values: Vec::new(alloc),
        literals: Vec::new(alloc),
    };
    for word in text.split_whitespace().rev() {
        reader.word(alloc, word)?;
    }
    Some(reader)
}

/// The literals of a text, in order.
pub fn literals(alloc: Global, text: &str) -> Option<Items<Literal>> {
    let mut all = Items::new(alloc);
    for l in read(alloc, text)?.literals.into_iter().rev() {
        all.push(l).ok()?;
    }
    Some(all)
}

/// A conjunct: the last literal is what it gives, and where there is none it gives nothing.
pub fn conjunct(alloc: Global, text: &str) -> Option<Conjunct> {
    let mut when = literals(alloc, text)?;
    let gives = when.pop();
    Some(Conjunct { when, gives })
}
