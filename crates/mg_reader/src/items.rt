//! Classes, and a whole metagrammar.
ghost use Rattle.std.specs.Prelude.{◌≡◌, [], ◌∷◌};
ghost use Rattle.gr_grammar.specs.Grammars.{tok, part};
ghost use Rattle.mg_reader.specs.Grammar.{class_text, item_text, metagrammar_text};
ghost use Rattle.mg_reader.specs.Values.{class_of, item_of, metagrammar_of};
ghost use Rattle.mg_reader.specs.Complaints.{class_bad, item_bad, item_read, metagrammar_bad, too_many};
ghost use Rattle.mg_reader.specs.Reading.{Reads};
ghost use Rattle.std.specs.Prelude.{◌<◌};
ghost use Rattle.mg_reader.specs.Reading.{counted};

use crate::cursor::{Stop, push};
use crate::lexeme::{Class, Kind};
use crate::notes::too_many;
use crate::reader::Reader;
use mg_syntax::{Class as ClassItem, Item, Metagrammar, Row};
use std::alloc::Global;

/// How many classes there are with an item, counted up to the first one that is too many.
fn count_with(count: usize, item: &Item) -> usize
    requires { count < 4098 }
    ensures { result ≡ counted count item.now }
{
    match item {
        Item::Class(_) => { if count < 4097 { count + 1 } else { 4097 } }
        _ => count,
    }
}

impl<'a> Reader<'a> {
    /// A whole metagrammar.
    pub(crate) fn items(&mut self, alloc: Global) -> Result<Metagrammar, Stop>
        ensures { Reads metagrammar_text (λ ts rest m. metagrammar_of m) (λ ts rest m. metagrammar_bad m) self.old.cursor.rest.now self.new.cursor.rest.now self.old.complaint self.new.complaint result }
    {
        let mut row = Row::new(alloc);
        let mut count = 0;
        'rows: while self.cursor.sees(&[
            Class::Is(Kind::Class),
            Class::Is(Kind::Value),
            Class::Is(Kind::Domain),
            Class::Is(Kind::Property),
            Class::Is(Kind::Feature),
            Class::Is(Kind::Use),
        ]) {
            let item = self.item(alloc, count)?;
            count = count_with(count, &item);
            let _item = push(&mut row, item)?;
        }
        Ok(row)
    }

    /// A class, where so many stand before it.
    fn class(&mut self, alloc: Global, count: usize) -> Result<ClassItem, Stop>
        ensures { Reads class_text (λ ts rest m. class_of m) (λ ts rest m. class_bad count m) self.old.cursor.rest.now self.new.cursor.rest.now self.old.complaint self.new.complaint result }
    {
        let word = self.cursor.take(Class::Is(Kind::Class))?;
        self.complaint = too_many(self.complaint, count, word);
        let name = self.cursor.take(Class::Plain)?;
        let imports = self.cursor.imports(alloc)?;
        let exports = self.cursor.exports(alloc)?;
        let declares = self.cursor.declares(alloc)?;
        let _open = self.cursor.take(Class::Is(Kind::LeftBrace))?;
        let body = self.body(alloc)?;
        let _close = self.cursor.take(Class::Is(Kind::RightBrace))?;
        Ok(ClassItem {
            name: name.name,
            imports,
            exports,
            declares,
            body,
        })
    }

    /// An item, where so many classes stand before it.
    fn item(&mut self, alloc: Global, count: usize) -> Result<Item, Stop>
        ensures { Reads item_text (λ ts rest m. item_of m) (λ ts rest m. item_bad count (item_read m)) self.old.cursor.rest.now self.new.cursor.rest.now self.old.complaint self.new.complaint result }
    {
        if self.cursor.sees(&[Class::Is(Kind::Class)]) {
            let class = self.class(alloc, count)?;
            Ok(Item::Class(class))
        } else if self.cursor.sees(&[Class::Is(Kind::Value)]) {
            let value = self.cursor.value()?;
            Ok(Item::Value(value))
        } else {
            let header = self.cursor.header(alloc)?;
            Ok(Item::Header(header))
        }
    }
}
