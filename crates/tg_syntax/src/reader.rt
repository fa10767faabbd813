//! Reads a whole text from the front, and keeps the first property that breaks the rule beside.
ghost use Rattle.std.specs.Prelude.{◌≡◌, ◌∷◌, []};
ghost use Rattle.gr_grammar.specs.Grammars.{tok, seq, star, part};
ghost use Rattle.tg_syntax.specs.declared.class.Class.TheVariants.{Byte};
ghost use Rattle.tg_syntax.specs.Families.{node_part};
ghost use Rattle.tg_syntax.specs.Trees.{PROPERTY, braces, kids, tree};
ghost use Rattle.tg_syntax.specs.Files.{LINES, class, cut_line, file, tree_rest, trees_rest};
ghost use Rattle.tg_syntax.specs.Breaks.{Notes};
ghost use Rattle.tg_syntax.specs.Reading.{Ends, Reads, ReadsLine};

use crate::breaks::break_in;
use crate::class::Class;
use crate::scanner::{Fault, Scanner};

/// How many brackets may be open.
const BRACKET_LIMIT: usize = 200;

/// What is left to read, and how many bytes were left at the first name or variable that breaks the
/// rule on properties.
#[derive(Clone, Copy)]
pub struct Reader<'a> {
    pub scanner: Scanner<'a>,
    pub broken: Option<usize>,
}

/// What is known of a break behind a property that begins these bytes.
fn noted(before: Option<usize>, property: &[u8]) -> Option<usize>
    ensures { Notes (property.now ∷ []) before result }
{
    match before {
        Some(left) => Some(left),
        None => break_in(property),
    }
}

impl<'a> Scanner<'a> {
    /// Takes the rest of the last line of a whole class, behind `tree`.
    fn trees_rest(&mut self) -> Result<(), Fault>
        ensures { Ends trees_rest self.old.rest.now self.new.rest.now result }
    {
        let _word = self.keyword(b"s ")?;
        let _count = self.number()?;
        let _end = self.take(Class::Byte(b'\n'))?;
        Ok(())
    }

    /// Takes the last line of a class that was cut.
    fn cut_line(&mut self) -> Result<(), Fault>
        ensures { Ends cut_line self.old.rest.now self.new.rest.now result }
    {
        let _word = self.keyword(b"cut ")?;
        let _count = self.number()?;
        let _end = self.take(Class::Byte(b'\n'))?;
        Ok(())
    }
}

impl<'a> Reader<'a> {
    /// Takes a property.
    fn property(&mut self) -> Result<(), Fault>
        ensures { Reads (part PROPERTY) self.old.scanner.rest.now self.new.scanner.rest.now self.old.broken self.new.broken result }
    {
        self.broken = noted(self.broken, self.scanner.rest);
        self.scanner.pair()
    }

    /// Takes a comma and a property.
    fn next_property(&mut self) -> Result<(), Fault>
        ensures { Reads (seq (tok (Byte 44)) (part PROPERTY)) self.old.scanner.rest.now self.new.scanner.rest.now self.old.broken self.new.broken result }
    {
        let _comma = self.scanner.take(Class::Byte(b','))?;
        let _property = self.property()?;
        Ok(())
    }

    /// Takes properties with commas between them.
    fn properties(&mut self) -> Result<(), Fault>
        ensures { Reads (seq (part PROPERTY) (star (seq (tok (Byte 44)) (part PROPERTY)))) self.old.scanner.rest.now self.new.scanner.rest.now self.old.broken self.new.broken result }
    {
        let _first = self.property()?;
        'row: while self.scanner.sees(Class::Byte(b',')) {
            let _next = self.next_property()?;
        }
        Ok(())
    }

    /// Takes properties in braces, if a brace comes next, with this many brackets left to open.
    fn braces(&mut self, room: usize) -> Result<(), Fault>
        ensures { Reads (braces room) self.old.scanner.rest.now self.new.scanner.rest.now self.old.broken self.new.broken result }
    {
        if room == 0 {
            return Ok(());
        }
        if !self.scanner.sees(Class::Byte(b'{')) {
            return Ok(());
        }
        let _opening = self.scanner.take(Class::Byte(b'{'))?;
        let _properties = self.properties()?;
        let _closing = self.scanner.take(Class::Byte(b'}'))?;
        Ok(())
    }

    /// Takes a node and what stands under it, with this many brackets left to open.
    #[cycle(nodes)]
    fn node(&mut self, room: usize) -> Result<(), Fault>
        ensures { Reads (part (node_part room)) self.old.scanner.rest.now self.new.scanner.rest.now self.old.broken self.new.broken result }
    {
        let _label = self.scanner.label()?;
        let _properties = self.braces(room)?;
        let _top = self.scanner.signed_bag(b'^', room)?;
        let _bottom = self.scanner.signed_bag(b'/', room)?;
        let _kids = self.kids(room)?;
        Ok(())
    }

    /// Takes a space and a node.
    #[cycle(nodes)]
    fn next_node(&mut self, room: usize) -> Result<(), Fault>
        ensures { Reads (seq (tok (Byte 32)) (part (node_part room))) self.old.scanner.rest.now self.new.scanner.rest.now self.old.broken self.new.broken result }
    {
        let _space = self.scanner.take(Class::Byte(b' '))?;
        let _node = self.node(room)?;
        Ok(())
    }

    /// Takes nodes in parentheses, if a parenthesis comes next, with this many brackets left to open.
    #[cycle(nodes)]
    fn kids(&mut self, room: usize) -> Result<(), Fault>
        ensures { Reads (kids room) self.old.scanner.rest.now self.new.scanner.rest.now self.old.broken self.new.broken result }
    {
        if room == 0 {
            return Ok(());
        }
        if !self.scanner.sees(Class::Byte(b'(')) {
            return Ok(());
        }
        let _opening = self.scanner.take(Class::Byte(b'('))?;
        let _first = self.node(room - 1)?;
        'row: while self.scanner.sees(Class::Byte(b' ')) {
            let _next = self.next_node(room - 1)?;
        }
        let _closing = self.scanner.take(Class::Byte(b')'))?;
        Ok(())
    }

    /// Takes a tree.
    fn tree(&mut self) -> Result<(), Fault>
        ensures { Reads tree self.old.scanner.rest.now self.new.scanner.rest.now self.old.broken self.new.broken result }
    {
        let _nodes = self.node(BRACKET_LIMIT)?;
        let _behind = self.scanner.behind_nodes()?;
        Ok(())
    }

    /// Takes the rest of the line of a tree, behind `tree`.
    fn tree_rest(&mut self) -> Result<(), Fault>
        ensures { Reads tree_rest self.old.scanner.rest.now self.new.scanner.rest.now self.old.broken self.new.broken result }
    {
        let _space = self.scanner.take(Class::Byte(b' '))?;
        let _number = self.scanner.number()?;
        let _space_2 = self.scanner.take(Class::Byte(b' '))?;
        let _tree = self.tree()?;
        let _end = self.scanner.take(Class::Byte(b'\n'))?;
        Ok(())
    }

    /// Takes a line of a class, and says whether it is a tree's.
    fn line(&mut self) -> Result<bool, Fault>
        ensures { ReadsLine self.old.scanner.rest.now self.new.scanner.rest.now self.old.broken self.new.broken result }
    {
        if !self.scanner.sees(Class::Byte(b't')) {
            let _cut = self.scanner.cut_line()?;
            return Ok(false);
        }
        let _word = self.scanner.keyword(b"tree")?;
        if self.scanner.sees(Class::Byte(b' ')) {
            let _tree = self.tree_rest()?;
            return Ok(true);
        }
        let _trees = self.scanner.trees_rest()?;
        Ok(false)
    }

    /// Takes the lines of a class behind its first.
    fn lines(&mut self) -> Result<(), Fault>
        ensures { Reads (part LINES) self.old.scanner.rest.now self.new.scanner.rest.now self.old.broken self.new.broken result }
    {
        'lines: loop {
            let more = self.line()?;
            if !more {
                return Ok(());
            }
        }
    }

    /// Takes a class.
    fn class(&mut self) -> Result<(), Fault>
        ensures { Reads class self.old.scanner.rest.now self.new.scanner.rest.now self.old.broken self.new.broken result }
    {
        let _word = self.scanner.keyword(b"class ")?;
        let _name = self.scanner.word()?;
        let _end = self.scanner.take(Class::Byte(b'\n'))?;
        let _lines = self.lines()?;
        Ok(())
    }

    /// Takes classes.
    fn classes(&mut self) -> Result<(), Fault>
        ensures { Reads (star class) self.old.scanner.rest.now self.new.scanner.rest.now self.old.broken self.new.broken result }
    {
        'row: while self.scanner.sees(Class::Byte(b'c')) {
            let _next = self.class()?;
        }
        Ok(())
    }

    /// Takes a whole text.
    pub fn file(&mut self) -> Result<(), Fault>
        ensures { Reads file self.old.scanner.rest.now self.new.scanner.rest.now self.old.broken self.new.broken result }
    {
        let _version = self.scanner.keyword(b"grammar 1\n")?;
        let _classes = self.classes()?;
        let _end = self.scanner.keyword(b"end\n")?;
        Ok(())
    }
}
