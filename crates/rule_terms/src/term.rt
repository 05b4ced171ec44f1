//! Store terms, value terms and places.
//! A contract sees them as the plain trees of `specs/Term.antt`.

ghost use Rattle.std.specs.Prelude.{◌≡◌, IfOk};
ghost use Rattle.rule_terms.specs.Term.{left_store, right_store, put, run, num, get, ev, add, sub, mul};

use sqlite_items::{Boxed, Items};
use std::alloc::Global;
use std::marker::Model;
use toy_imp::NoMemory;

/// A store that runs come to, from the stores of the left and of the right side.
#[cycle(term)]
#[derive(Drop)]
pub struct StoreTerm {
    pub node: StoreNode,
}

/// The top of a store term.
#[cycle(term)]
#[derive(Drop)]
pub enum StoreNode {
    /// The store of the left side.
    L,
    /// The store of the right side.
    R,
    /// A store with a value written at a place.
    Put(Boxed<StoreTerm>, Place, Boxed<ValueTerm>),
    /// The store in which the statement parameter of this number ends from a store, if it does.
    Run(u32, Boxed<StoreTerm>),
}

/// A cell: the number of a parameter of kind `Name`, and indices, of which a variable has none.
#[cycle(term)]
#[derive(Drop)]
pub struct Place {
    pub name: u32,
    pub indices: Items<ValueTerm>,
}

/// A whole number of any size.
#[cycle(term)]
#[derive(Drop)]
pub struct ValueTerm {
    pub node: ValueNode,
}

/// The top of a value term.
#[cycle(term)]
#[derive(Drop)]
pub enum ValueNode {
    /// A constant.
    Num(i64),
    /// What a place holds in a store.
    Get(Place, Boxed<StoreTerm>),
    /// The value of the expression parameter of this number in a store.
    Ev(u32, Boxed<StoreTerm>),
    Add(Boxed<ValueTerm>, Boxed<ValueTerm>),
    Sub(Boxed<ValueTerm>, Boxed<ValueTerm>),
    Mul(Boxed<ValueTerm>, Boxed<ValueTerm>),
}

impl Model for StoreTerm {
    ghost use Rattle.rule_terms.specs.Term.{StoreTerm};
    ghost use Rattle.rule_terms.specs.TermSize.{store_size};
    ghost use Rattle.rule_terms.specs.TermCode.{store_code};

    ghost Value = { StoreTerm };

    ghost coded = { store_code };

    ghost use Rattle.rule_terms.specs.TermView.{store_of};

    ghost view = { λ a. store_of a.node };

    ghost size = { store_size };

    ghost use Rattle.rule_terms.specs.TermFalls.{store_falls};

    ghost size_decreases = { λ a h. store_falls a.node };
}

impl Model for Place {
    ghost use Rattle.rule_terms.specs.Term.{Place};
    ghost use Rattle.rule_terms.specs.TermSize.{place_size};
    ghost use Rattle.rule_terms.specs.TermCode.{place_code};

    ghost Value = { Place };

    ghost coded = { place_code };

    ghost use Rattle.rule_terms.specs.TermView.{place_of};

    ghost view = { λ a. place_of a.name a.indices };

    ghost size = { place_size };

    ghost use Rattle.rule_terms.specs.TermFalls.{indices_fall};

    ghost size_decreases = { λ a h. indices_fall a.indices };
}

impl Model for ValueTerm {
    ghost use Rattle.rule_terms.specs.Term.{ValueTerm};
    ghost use Rattle.rule_terms.specs.TermSize.{value_size};
    ghost use Rattle.rule_terms.specs.TermCode.{value_code};

    ghost Value = { ValueTerm };

    ghost coded = { value_code };

    ghost use Rattle.rule_terms.specs.TermView.{value_of};

    ghost view = { λ a. value_of a.node };

    ghost size = { value_size };

    ghost use Rattle.rule_terms.specs.TermFalls.{value_falls};

    ghost size_decreases = { λ a h. value_falls a.node };
}

impl StoreTerm {
    /// The store of the left side.
    pub fn left() -> StoreTerm
        ensures { result ≡ left_store }
    {
        StoreTerm { node: StoreNode::L }
    }

    /// The store of the right side.
    pub fn right() -> StoreTerm
        ensures { result ≡ right_store }
    {
        StoreTerm { node: StoreNode::R }
    }

    /// The store `s` with `v` written at `p`.
    pub fn put(alloc: Global, s: StoreTerm, p: Place, v: ValueTerm) -> Result<StoreTerm, NoMemory>
        ensures { IfOk result (λ t. t ≡ put s p.name p.indices v) }
    {
        let s = Boxed::new(alloc, s)?;
        let v = Boxed::new(alloc, v)?;
        Ok(StoreTerm {
            node: StoreNode::Put(s, p, v),
        })
    }

    /// The store in which the statement parameter `k` ends from `s`.
    pub fn run(alloc: Global, k: u32, s: StoreTerm) -> Result<StoreTerm, NoMemory>
        ensures { IfOk result (λ t. t ≡ run k s) }
    {
        let s = Boxed::new(alloc, s)?;
        Ok(StoreTerm {
            node: StoreNode::Run(k, s),
        })
    }
}

impl ValueTerm {
    /// The constant `z`.
    pub fn num(z: i64) -> ValueTerm
        ensures { result ≡ num z }
    {
        ValueTerm {
            node: ValueNode::Num(z),
        }
    }

    /// What the place `p` holds in `s`.
    pub fn get(alloc: Global, p: Place, s: StoreTerm) -> Result<ValueTerm, NoMemory>
        ensures { IfOk result (λ v. v ≡ get p.name p.indices s) }
    {
        let s = Boxed::new(alloc, s)?;
        Ok(ValueTerm {
            node: ValueNode::Get(p, s),
        })
    }

    /// The value of the expression parameter `k` in `s`.
    pub fn ev(alloc: Global, k: u32, s: StoreTerm) -> Result<ValueTerm, NoMemory>
        ensures { IfOk result (λ v. v ≡ ev k s) }
    {
        let s = Boxed::new(alloc, s)?;
        Ok(ValueTerm {
            node: ValueNode::Ev(k, s),
        })
    }

    /// The sum `a + b`.
    pub fn add(alloc: Global, a: ValueTerm, b: ValueTerm) -> Result<ValueTerm, NoMemory>
        ensures { IfOk result (λ v. v ≡ add a b) }
    {
        let a = Boxed::new(alloc, a)?;
        let b = Boxed::new(alloc, b)?;
        Ok(ValueTerm {
            node: ValueNode::Add(a, b),
        })
    }

    /// The difference `a - b`.
    pub fn sub(alloc: Global, a: ValueTerm, b: ValueTerm) -> Result<ValueTerm, NoMemory>
        ensures { IfOk result (λ v. v ≡ sub a b) }
    {
        let a = Boxed::new(alloc, a)?;
        let b = Boxed::new(alloc, b)?;
        Ok(ValueTerm {
            node: ValueNode::Sub(a, b),
        })
    }

    /// The product `a * b`.
    pub fn mul(alloc: Global, a: ValueTerm, b: ValueTerm) -> Result<ValueTerm, NoMemory>
        ensures { IfOk result (λ v. v ≡ mul a b) }
    {
        let a = Boxed::new(alloc, a)?;
        let b = Boxed::new(alloc, b)?;
        Ok(ValueTerm {
            node: ValueNode::Mul(a, b),
        })
    }
}
