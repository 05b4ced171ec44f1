//! The declared parameters of a rule, as a reader looks written names up in them. A program declares
//! none. `specs/Parameters.antt` of toy_imp says what a name stands for, and `specs/NameIndex.antt`
//! what the index has at each name; a look-up reads the name and no list of parameters.

ghost use Rattle.std.specs.Prelude.{◌≡◌, ◌<◌, ◌^◌, [], IfOk, OnOk, length};
ghost use Rattle.toy_imp.specs.ExprView.{exprs_of};
ghost use Rattle.toy_imp.specs.Parameters.{number_of, kind_of, name_value, cell_value, test_value, stmt_value};
ghost use Rattle.program_reader.specs.NameIndex.{IsIndexOf, AddsNumber};

use indexmap::IndexMap;
use sqlite_items::Items;
use std::alloc::Global;
use std::marker::Model;
use toy_imp::{Expr, Kind, Name, NoMemory, Param, Stmt, Test};

/// The declared parameters, in order of declaration. A contract sees their list.
#[derive(Drop)]
pub struct Names {
    params: Items<Param>,
    /// At each name the number of the first parameter that has it.
    numbers: IndexMap<Vec<u8>, u32>,
}

impl Model for Names {
    ghost use Rattle.std.specs.Prelude.{List, length, ◌<◌, ◌^◌};
    ghost use Rattle.std.specs.Coded.{coded_list};
    ghost use Rattle.toy_imp.specs.declared.param.Param.{Param};
    ghost use Rattle.toy_imp.specs.contracts.param.Param.{the_row};
    ghost use Rattle.program_reader.specs.NameIndex.{IsIndexOf};

    ghost Value = { List Param };

    ghost coded = { coded_list the_row.coded };

    ghost view = { λ names. names.params };

    ghost invariant = { λ names. (length names.params < 2 ^ 32) × IsIndexOf names.numbers.entries names.params };
}

impl Names {
    /// No parameters, as in a program.
    pub fn none(alloc: Global) -> Names
        ensures { result ≡ [] }
    {
        Names {
            params: Items::new(alloc),
            numbers: IndexMap::new(alloc),
        }
    }

    /// These parameters. Of two with one name the first gets it.
    pub fn of(alloc: Global, params: Items<Param>) -> Result<Names, NoMemory>
        requires { length params < 2 ^ 32 }
        ensures { IfOk result (λ names. names ≡ params) }
    {
        let numbers = index(alloc, params.as_slice())?;
        Ok(Names { params, numbers })
    }

    /// The parameters, in order of declaration.
    pub fn params(&self) -> &[Param]
        ensures { result.now ≡ self.now }
    {
        self.params.as_slice()
    }

    /// The parameters again, without their index.
    pub fn into_params(self) -> Items<Param>
        ensures { result ≡ self }
    {
        let Names { params, .. } = self;
        params
    }

    /// The number of the first parameter of this name, and how many there are where none has it.
    fn number(&self, x: &[u8]) -> u32
        ensures { result ≡ number_of self.now x.now }
    {
        match self.numbers.get(x) {
            Some(number) => *number,
            None => self.params.len() as u32,
        }
    }

    /// The kind of the first parameter of this name.
    fn kind(&self, x: &[u8]) -> Option<Kind>
        ensures { result ≡ kind_of self.now x.now }
    {
        let number = self.number(x) as usize;
        match self.params.get(number) {
            Some(param) => Some(param.kind),
            None => None,
        }
    }

    /// The name that a written name stands for: its parameter, or itself where it is not declared.
    pub fn name(&self, alloc: Global, x: &[u8]) -> Result<Name, NoMemory>
        ensures { IfOk result (λ name. name ≡ name_value self.now x.now) }
    {
        let number = self.number(x);
        if (number as usize) < self.params.len() {
            Ok(Name::Par(number))
        } else {
            Ok(Name::Own(Items::from_slice(alloc, x)?))
        }
    }

    /// The cell of a written name at indices, or the expression parameter of this name.
    pub fn cell(&self, alloc: Global, x: &[u8], indices: Items<Expr>) -> Result<Expr, NoMemory>
        ensures { IfOk result (λ e. e ≡ cell_value self.now x.now (exprs_of indices)) }
    {
        match self.kind(x) {
            Some(Kind::Expr) if indices.is_empty() => Ok(Expr::par(self.number(x))),
            _ => {
                let name = self.name(alloc, x)?;
                Ok(Expr::at(name, indices))
            }
        }
    }

    /// The test parameter that a name alone is.
    pub fn test(&self, x: &[u8]) -> Test
        ensures { result ≡ test_value self.now x.now }
    {
        Test::par(self.number(x))
    }

    /// The statement parameter that a name alone is.
    pub fn stmt(&self, x: &[u8]) -> Stmt
        ensures { result ≡ stmt_value self.now x.now }
    {
        Stmt::par(self.number(x))
    }
}

/// The number of the first parameter of each name.
fn index(alloc: Global, params: &[Param]) -> Result<IndexMap<Vec<u8>, u32>, NoMemory>
    requires { length params.now < 2 ^ 32 }
    ensures { IfOk result (λ numbers. IsIndexOf numbers.entries params.now) }
{
    let mut numbers = IndexMap::new(alloc);
    for (i, param) in params.iter().enumerate() {
        add(alloc, &mut numbers, param.name.as_slice(), i as u32)?;
    }
    Ok(numbers)
}

/// Puts a number at a name that has none yet.
fn add(
    alloc: Global,
    numbers: &mut IndexMap<Vec<u8>, u32>,
    name: &[u8],
    number: u32,
) -> Result<(), NoMemory>
    ensures { OnOk result (AddsNumber numbers.old.entries name.now number numbers.new.entries) }
{
    if numbers.contains_key(name) {
        return Ok(());
    }
    let key = Vec::from_slice(alloc, name)?;
    numbers.insert(key, number)?;
    Ok(())
}
