//! Node blocks, and what stands in a `<syn>` block.
ghost use Rattle.std.specs.Prelude.{◌≡◌, [], ◌∷◌};
ghost use Rattle.gr_grammar.specs.Grammars.{tok, part};
ghost use Rattle.mg_reader.specs.Grammar.{kid_list_text, kid_text, kids_text, more_syn_item_text, next_kid_text, perhaps_kids_text, perhaps_syn_items_text, syn_item_text, syn_items_text};
ghost use Rattle.mg_reader.specs.Values.{kid_list_of, kid_of, kids_of, more_syn_item_of, next_kid_of, node_of, node_with, perhaps_kids_of, perhaps_syn_items_of, syn_item_of, syn_items_of};
ghost use Rattle.mg_reader.specs.Complaints.{kid_bad, kid_list_bad, kids_bad, more_syn_item_bad, next_kid_bad, node_bad, perhaps_kids_bad, perhaps_syn_items_bad, syn_item_bad, syn_items_bad};
ghost use Rattle.mg_reader.specs.Reading.{Reads};

use crate::cursor::{Stop, push};
use crate::found::node_with;
use crate::lexeme::{Class, Kind};
use crate::reader::Reader;
use mg_syntax::{Kid, Kids, NodeBlock, Row, SynItem, SynItems};
use std::alloc::Global;

impl<'a> Reader<'a> {
    /// A node block.
    #[cycle(nodes)]
    pub(crate) fn node(&mut self, alloc: Global) -> Result<NodeBlock, Stop>
        ensures { Reads (part 1) (λ ts rest m. node_of m) (λ ts rest m. node_bad m) self.old.cursor.rest.now self.new.cursor.rest.now self.old.complaint self.new.complaint result }
    {
        let _word = self.cursor.take(Class::Is(Kind::Node))?;
        let name = self.cursor.node_name()?;
        let properties = self.property_list(alloc)?;
        let features = self.feature_list(alloc)?;
        let kids = self.kid_list(alloc)?;
        let block = node_with(alloc, name, properties, features, kids)?;
        Ok(block)
    }

    /// The kids of a node block, in braces, or none.
    #[cycle(nodes)]
    fn kid_list(&mut self, alloc: Global) -> Result<Kids, Stop>
        ensures { Reads kid_list_text (λ ts rest m. kid_list_of m) (λ ts rest m. kid_list_bad m) self.old.cursor.rest.now self.new.cursor.rest.now self.old.complaint self.new.complaint result }
    {
        if self.cursor.sees(&[Class::Is(Kind::LeftBrace)]) {
            let _open = self.cursor.take(Class::Is(Kind::LeftBrace))?;
            let kids = self.perhaps_kids(alloc)?;
            let _close = self.cursor.take(Class::Is(Kind::RightBrace))?;
            Ok(kids)
        } else {
            Ok(Row::new(alloc))
        }
    }

    /// Kids, if there are some.
    #[cycle(nodes)]
    fn perhaps_kids(&mut self, alloc: Global) -> Result<Kids, Stop>
        ensures { Reads perhaps_kids_text (λ ts rest m. perhaps_kids_of m) (λ ts rest m. perhaps_kids_bad m) self.old.cursor.rest.now self.new.cursor.rest.now self.old.complaint self.new.complaint result }
    {
        if self.cursor.sees(&[Class::Descent, Class::Is(Kind::Node)]) {
            let kids = self.kids(alloc)?;
            Ok(kids)
        } else {
            Ok(Row::new(alloc))
        }
    }

    /// Kids, side by side or loosely so.
    #[cycle(nodes)]
    fn kids(&mut self, alloc: Global) -> Result<Kids, Stop>
        ensures { Reads kids_text (λ ts rest m. kids_of m) (λ ts rest m. kids_bad m) self.old.cursor.rest.now self.new.cursor.rest.now self.old.complaint self.new.complaint result }
    {
        let mut row = Row::new(alloc);
        let first = self.kid(alloc, false)?;
        let _first = push(&mut row, first)?;
        'rows: while self.cursor.sees(&[
            Class::Is(Kind::Commas),
            Class::Descent,
            Class::Is(Kind::Node),
        ]) {
            let more = self.next_kid(alloc)?;
            let _more = push(&mut row, more)?;
        }
        Ok(row)
    }

    /// A further kid.
    #[cycle(nodes)]
    fn next_kid(&mut self, alloc: Global) -> Result<Kid, Stop>
        ensures { Reads next_kid_text (λ ts rest m. next_kid_of m) (λ ts rest m. next_kid_bad m) self.old.cursor.rest.now self.new.cursor.rest.now self.old.complaint self.new.complaint result }
    {
        let loose = self.cursor.skip(Class::Is(Kind::Commas));
        let kid = self.kid(alloc, loose)?;
        Ok(kid)
    }

    /// A kid, which stands loosely or not.
    #[cycle(nodes)]
    fn kid(&mut self, alloc: Global, loose: bool) -> Result<Kid, Stop>
        ensures { Reads kid_text (λ ts rest m. kid_of loose m) (λ ts rest m. kid_bad m) self.old.cursor.rest.now self.new.cursor.rest.now self.old.complaint self.new.complaint result }
    {
        let down = self.cursor.down()?;
        let node = self.node(alloc)?;
        Ok(Kid { down, loose, node })
    }

    /// A node block or a relation.
    fn syn_item(&mut self, alloc: Global) -> Result<SynItem, Stop>
        ensures { Reads syn_item_text (λ ts rest m. syn_item_of m) (λ ts rest m. syn_item_bad m) self.old.cursor.rest.now self.new.cursor.rest.now self.old.complaint self.new.complaint result }
    {
        if self.cursor.sees(&[Class::Is(Kind::Node)]) {
            let node = self.node(alloc)?;
            Ok(SynItem::Node(node))
        } else {
            let relation = self.cursor.relation()?;
            Ok(relation)
        }
    }

    /// A semicolon and a node block or a relation.
    fn more_syn_item(&mut self, alloc: Global) -> Result<SynItem, Stop>
        ensures { Reads more_syn_item_text (λ ts rest m. more_syn_item_of m) (λ ts rest m. more_syn_item_bad m) self.old.cursor.rest.now self.new.cursor.rest.now self.old.complaint self.new.complaint result }
    {
        let _semicolon = self.cursor.take(Class::Is(Kind::Semicolon))?;
        let item = self.syn_item(alloc)?;
        Ok(item)
    }

    /// Node blocks and relations, with semicolons between them.
    fn syn_items(&mut self, alloc: Global) -> Result<SynItems, Stop>
        ensures { Reads syn_items_text (λ ts rest m. syn_items_of m) (λ ts rest m. syn_items_bad m) self.old.cursor.rest.now self.new.cursor.rest.now self.old.complaint self.new.complaint result }
    {
        let mut row = Row::new(alloc);
        let first = self.syn_item(alloc)?;
        let _first = push(&mut row, first)?;
        'rows: while self.cursor.sees(&[Class::Is(Kind::Semicolon)]) {
            let more = self.more_syn_item(alloc)?;
            let _more = push(&mut row, more)?;
        }
        Ok(row)
    }

    /// Node blocks and relations, if there are some.
    pub(crate) fn perhaps_syn_items(&mut self, alloc: Global) -> Result<SynItems, Stop>
        ensures { Reads perhaps_syn_items_text (λ ts rest m. perhaps_syn_items_of m) (λ ts rest m. perhaps_syn_items_bad m) self.old.cursor.rest.now self.new.cursor.rest.now self.old.complaint self.new.complaint result }
    {
        if self
            .cursor
            .sees(&[Class::Is(Kind::Node), Class::Is(Kind::Var)])
        {
            let items = self.syn_items(alloc)?;
            Ok(items)
        } else {
            Ok(Row::new(alloc))
        }
    }
}
