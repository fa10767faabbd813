//! The variables of a class, and the rules on where they stand.
ghost use Rattle.std.specs.Prelude.{◌≡◌, List, ◌∷◌, [], ◌++◌, ℕ, length, map, slice_get, OnOk, MatchOption, IsTrue, ◌↔◌, None, Some};
ghost use Rattle.gr_base.specs.Lists.{Each, IsAmong, gathered};
ghost use Rattle.gr_terms.specs.declared.Sym.{Sym};
ghost use Rattle.mg_syntax.specs.declared.item.Item.{Item};
ghost use Rattle.mg_syntax.specs.declared.item.Class.{Class};
ghost use Rattle.mg_scope.specs.declared.uses.Use.{Use};
ghost use Rattle.mg_scope.specs.Classes.{uses_of, exports_of};
ghost use Rattle.mg_scope.specs.Faults.{IsRightUse, IsRightExport, IsRightDot, IsFirstWithout, IsDotOf};
ghost use Rattle.mg_scope.specs.Tables.{Cells, value_at, IsBlank};
ghost use Rattle.mg_scope.specs.Orders.{IsSet};
ghost use Rattle.mg_scope.specs.Variables.{Marks, MarksAsked, HasImported, asked_in, AreCalls, AreStatements, CountsCall, AreVariables, IsExported, variable_in, IsFirstWrongUse};

use crate::directory::Directory;
use crate::table::Table;
use crate::uses::Use;
use gr_base::Memory;
use gr_terms::Sym;
use mg_syntax::Class;
use std::alloc::Global;

/// The variables of a class: which it declares, which of those in it it sees, which stand left of a
/// call, once or more often, and the place of the last use where they do.
#[derive(Drop)]
pub struct Variables {
    pub declared: Table,
    pub seen: Table,
    pub calls: Table,
    pub statements: Table,
    imported: Table,
    asked: Vec<Sym>,
}

// Puts names into a table.
fn mark(table: &mut Table, names: &[Sym]) -> Result<(), Memory>
    ensures { OnOk result (Marks table.old table.new names.now) }
{
    for name in names {
        table.set(*name, 0)?;
    }
    Ok(())
}

// Puts a name into a table, where a class exports it.
fn mark_if_exported(
    table: &mut Table,
    directory: &Directory,
    class: Sym,
    name: Sym,
) -> Result<(), Memory>
    ensures { OnOk result (MarksAsked table.old table.new (exports_of directory.now class) (name ∷ [])) }
{
    if !directory.does_export(class, name) {
        return Ok(());
    }
    table.set(name, 0)
}

// Puts those of the names that a class exports into a table.
fn mark_exported(
    table: &mut Table,
    directory: &Directory,
    class: Sym,
    names: &[Sym],
) -> Result<(), Memory>
    ensures { OnOk result (MarksAsked table.old table.new (exports_of directory.now class) names.now) }
{
    for name in names {
        mark_if_exported(table, directory, class, *name)?;
    }
    Ok(())
}

// Puts what a class exports into a table: all of it, or just what is asked for, where that is less.
fn mark_import(
    table: &mut Table,
    directory: &Directory,
    class: Sym,
    asked: &[Sym],
) -> Result<(), Memory>
    ensures { OnOk result (MarksAsked table.old table.new (exports_of directory.now class) asked.now) }
{
    let exports = directory.exports(class);
    if exports.len() > asked.len() {
        return mark_exported(table, directory, class, asked);
    }
    mark(table, exports)
}

// The same, unless the class was imported before.
fn mark_once(
    table: &mut Table,
    imported: &mut Table,
    directory: &Directory,
    class: Sym,
    asked: &[Sym],
) -> Result<(), Memory>
    ensures { OnOk result ((base : Cells) (done : List Sym) → HasImported directory.now base table.old imported.old done asked.now → HasImported directory.now base table.new imported.new (done ++ class ∷ []) asked.now) }
{
    match imported.get(class) {
        Some(_) => Ok(()),
        None => {
            imported.set(class, 0)?;
            mark_import(table, directory, class, asked)?;
            Ok(())
        }
    }
}

// Puts what classes export into a table, as far as it is asked for.
fn mark_imports(
    table: &mut Table,
    imported: &mut Table,
    directory: &Directory,
    classes: &[Sym],
    asked: &[Sym],
) -> Result<(), Memory>
    requires { IsBlank imported.old }
    ensures { OnOk result (MarksAsked table.old table.new (gathered (exports_of directory.now) classes.now) asked.now) }
{
    for class in classes {
        mark_once(table, imported, directory, *class, asked)?;
    }
    Ok(())
}

// Makes a list of the names that a class asks for: those that it exports and those in its uses.
fn list_asked(asked: &mut Vec<Sym>, exports: &[Sym], uses: &[Use]) -> Result<(), Memory>
    ensures { OnOk result (asked.new.items ≡ exports.now ++ map variable_in uses.now) }
{
    asked.clear();
    asked.extend_from_slice(exports)?;
    for one in uses {
        asked.push(printed(*one))?;
    }
    Ok(())
}

// Goes through the uses for the variables that stand left of calls.
fn count_calls(calls: &mut Table, statements: &mut Table, uses: &[Use]) -> Result<(), Memory>
    requires no_calls { IsBlank calls.old }
    requires no_statements { IsBlank statements.old }
    ensures { OnOk result (AreCalls calls.new statements.new uses.now) }
{
    for place in 0..uses.len() {
        count_use(calls, statements, uses[place], place)?;
    }
    Ok(())
}

fn count_use(
    calls: &mut Table,
    statements: &mut Table,
    one: Use,
    place: usize,
) -> Result<(), Memory>
    ensures { OnOk result ((before : List Use) → length before ≡ place → AreCalls calls.old statements.old before → AreCalls calls.new statements.new (before ++ one ∷ [])) }
{
    match one {
        Use::Bound(variable, _) => {
            count_call(calls, variable)?;
            statements.set(variable, place)?;
            Ok(())
        }
        Use::Alone(_) => Ok(()),
        Use::Called(_) => Ok(()),
        Use::Dotted(_, _) => Ok(()),
    }
}

// One more call of the variable: 1 is the first, and 2 stands for more.
fn count_call(calls: &mut Table, variable: Sym) -> Result<(), Memory>
    ensures { OnOk result (CountsCall calls.old calls.new variable) }
{
    match calls.get(variable) {
        Some(_) => {
            calls.set(variable, 2)?;
            Ok(())
        }
        None => {
            calls.set(variable, 1)?;
            Ok(())
        }
    }
}

impl Variables {
    /// Tables of no class.
    pub fn new(alloc: Global) -> Variables {
        Variables {
            declared: Table::new(alloc),
            seen: Table::new(alloc),
            calls: Table::new(alloc),
            statements: Table::new(alloc),
            imported: Table::new(alloc),
            asked: Vec::new(alloc),
        }
    }

    /// Takes the variables of a class, whose uses are handed in, in place of those of another one.
    pub fn read(&mut self, directory: &Directory, class: &Class, uses: &[Use]) -> Result<(), Memory>
        requires { uses.now ≡ uses_of class.now }
        ensures { OnOk result (AreVariables directory.now class.now self.new) }
    {
        self.declared.clear();
        mark(&mut self.declared, class.declares.as_slice())?;
        self.seen.clear();
        mark(&mut self.seen, class.declares.as_slice())?;
        self.imported.clear();
        list_asked(&mut self.asked, class.exports.as_slice(), uses)?;
        mark_imports(
            &mut self.seen,
            &mut self.imported,
            directory,
            class.imports.as_slice(),
            &self.asked,
        )?;
        self.calls.clear();
        self.statements.clear();
        count_calls(&mut self.calls, &mut self.statements, uses)?;
        Ok(())
    }

    fn is_declared(&self, variable: Sym) -> bool
        ensures { IsTrue result ↔ IsSet self.now.declared variable }
    {
        match self.declared.get(variable) {
            Some(_) => true,
            None => false,
        }
    }

    fn is_seen(&self, variable: Sym) -> bool
        ensures { IsTrue result ↔ IsSet self.now.seen variable }
    {
        match self.seen.get(variable) {
            Some(_) => true,
            None => false,
        }
    }

    // Whether the variable stands left of a call.
    fn is_called(&self, variable: Sym) -> bool
        ensures { IsTrue result ↔ IsSet self.now.calls variable }
    {
        match self.calls.get(variable) {
            Some(_) => true,
            None => false,
        }
    }

    // Whether it stands so just once.
    fn is_called_once(&self, variable: Sym) -> bool
        ensures { IsTrue result ↔ (value_at self.now.calls variable ≡ Some 1) }
    {
        match self.calls.get(variable) {
            Some(count) => count == 1,
            None => false,
        }
    }

    // Whether the variable may stand alone.
    fn is_plain(&self, variable: Sym) -> bool
        ensures { (m : List Item) (k : Class) → AreVariables m k self.now → IsAmong (asked_in k) variable → (IsTrue result ↔ IsRightExport m k variable) }
    {
        if self.is_called(variable) {
            return false;
        }
        self.is_seen(variable)
    }

    // Whether the variable may stand left of a call.
    fn is_bound(&self, variable: Sym) -> bool
        ensures { (m : List Item) (k : Class) (c : Sym) → AreVariables m k self.now → (IsTrue result ↔ IsRightUse m k (Use.Bound variable c)) }
    {
        if !self.is_called_once(variable) {
            return false;
        }
        self.is_declared(variable)
    }

    // Whether the variable may stand before a dot.
    fn is_before_dot(&self, variable: Sym) -> bool
        ensures { (m : List Item) (k : Class) (y : Sym) → AreVariables m k self.now → IsAmong (asked_in k) variable → (IsTrue result ↔ IsRightUse m k (Use.Dotted variable y)) }
    {
        if !self.is_called(variable) {
            return false;
        }
        self.is_seen(variable)
    }

    // Whether a use keeps the rule on variables.
    fn is_right_use(&self, one: Use) -> bool
        ensures { (m : List Item) (k : Class) → AreVariables m k self.now → IsAmong (uses_of k) one → (IsTrue result ↔ IsRightUse m k one) }
    {
        match one {
            Use::Alone(variable) => self.is_plain(variable),
            Use::Bound(variable, _) => self.is_bound(variable),
            Use::Called(_) => true,
            Use::Dotted(variable, _) => self.is_before_dot(variable),
        }
    }

    /// The variable of the first use that breaks the rule on variables.
    pub fn first_wrong_use(&self, uses: &[Use]) -> Option<Sym>
        ensures { (m : List Item) (k : Class) → AreVariables m k self.now → uses.now ≡ uses_of k → MatchOption result
            (Each (IsRightUse m k) uses.now)
            (IsFirstWrongUse m k uses.now) }
    {
        for one in uses {
            if !self.is_right_use(*one) {
                return Some(printed(*one));
            }
        }
        None
    }

    /// The first of the exported names that is not seen or is a call variable.
    pub fn first_wrong_export(&self, exports: &[Sym]) -> Option<Sym>
        ensures { (m : List Item) (k : Class) → AreVariables m k self.now → exports.now ≡ k.exports → MatchOption result
            (Each (IsRightExport m k) exports.now)
            (IsFirstWithout (IsRightExport m k) exports.now) }
    {
        for export in exports {
            if !self.is_plain(*export) {
                return Some(*export);
            }
        }
        None
    }

    /// The variable and the name of the first dot behind which a name stands that the called class
    /// does not export. The variables stand where they may.
    pub fn first_wrong_dot(&self, directory: &Directory, uses: &[Use]) -> Option<(Sym, Sym)>
        requires { AreStatements self.now.statements uses.now }
        ensures { (k : Class) → AreVariables directory.now k self.now → uses.now ≡ uses_of k → Each (IsRightUse directory.now k) uses.now → MatchOption result
            (Each (IsRightDot directory.now k) uses.now)
            (λ d. (u : Use) × IsDotOf u (record { of = Some d.0; name = d.1 }) × IsFirstWithout (IsRightDot directory.now k) uses.now u) }
    {
        for one in uses {
            if let Some(dot) = self.wrong_dot(directory, uses, *one) {
                return Some(dot);
            }
        }
        None
    }

    // The variable and the name of a dot, where it is wrong.
    fn wrong_dot(&self, directory: &Directory, uses: &[Use], one: Use) -> Option<(Sym, Sym)>
        requires { AreStatements self.now.statements uses.now }
        ensures { (k : Class) → AreVariables directory.now k self.now → uses.now ≡ uses_of k → Each (IsRightUse directory.now k) uses.now → IsAmong uses.now one → MatchOption result
            (IsRightDot directory.now k one)
            (λ d. IsDotOf one (record { of = Some d.0; name = d.1 }) × (IsRightDot directory.now k one → ⊥)) }
    {
        match one {
            Use::Dotted(variable, name) => {
                if self.is_exported(directory, uses, variable, name) {
                    None
                } else {
                    Some((variable, name))
                }
            }
            Use::Alone(_) => None,
            Use::Bound(_, _) => None,
            Use::Called(_) => None,
        }
    }

    // Whether the class that is bound to the variable exports the name.
    fn is_exported(&self, directory: &Directory, uses: &[Use], variable: Sym, name: Sym) -> bool
        requires { AreStatements self.now.statements uses.now }
        ensures { IsTrue result ↔ IsExported directory.now self.now.statements uses.now variable name }
    {
        match self.statements.get(variable) {
            Some(place) => does_export(directory, uses[place], name),
            None => true,
        }
    }
}

// Whether the class that a use calls exports the name.
fn does_export(directory: &Directory, one: Use, name: Sym) -> bool
    ensures { (x c : Sym) → one ≡ Use.Bound x c → (IsTrue result ↔ IsAmong (exports_of directory.now c) name) }
{
    match one {
        Use::Bound(_, class) => directory.does_export(class, name),
        Use::Alone(_) => true,
        Use::Called(_) => true,
        Use::Dotted(_, _) => true,
    }
}

// The variable that a use prints.
fn printed(one: Use) -> Sym
    ensures { result ≡ variable_in one }
{
    match one {
        Use::Alone(variable) => variable,
        Use::Bound(variable, _) => variable,
        Use::Called(class) => class,
        Use::Dotted(variable, _) => variable,
    }
}
