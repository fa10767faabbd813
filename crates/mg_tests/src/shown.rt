//! For tests: a metagrammar as text, each part as a word with what it has in round brackets.
use gr_symbols::Symbols;
use gr_terms::{Sym, Syms};
use mg_syntax::{
    Alternative, Bag, Class, Header, Item, Kid, Literal, Metagrammar, NodeBlock, Paint, Ref,
    Relate, Side, Statement, SynItem,
};
use std::alloc::{AllocError, Global};

/// Writes names as their texts.
#[derive(Drop)]
struct Writer<'s> {
    out: String,
    symbols: &'s Symbols,
}

/// The metagrammar, each item followed by `;`.
pub fn shown(alloc: Global, found: &Metagrammar, symbols: &Symbols) -> Result<String, AllocError> {
    let mut writer = Writer {
        out: String::new(alloc),
        symbols,
    };
    for item in found.as_slice() {
        writer.item(item)?;
        writer.put(";")?;
    }
    Ok(writer.out)
}

/// The sign of a relation.
fn sign(how: Relate) -> &'static str {
    match how {
        Relate::Parent => "->",
        Relate::Above => "->+",
        Relate::AboveOrSame => "->*",
        Relate::Next => ">>",
        Relate::Left => ">>+",
        Relate::LeftOrSame => ">>*",
        Relate::Same => "=",
    }
}

impl<'s> Writer<'s> {
    fn put(&mut self, text: &str) -> Result<(), AllocError> {
        self.out.push_str(text)
    }

    fn name(&mut self, name: Sym) -> Result<(), AllocError> {
        if (name.0 as usize) < self.symbols.len() {
            self.put(self.symbols.text(name))?;
        }
        Ok(())
    }

    /// A blank, unless a bracket was opened just before.
    fn gap(&mut self) -> Result<(), AllocError> {
        if !self.out.as_str().ends_with('(') {
            self.put(" ")?;
        }
        Ok(())
    }

    fn names(&mut self, names: &Syms) -> Result<(), AllocError> {
        for name in names.as_slice() {
            self.gap()?;
            self.name(*name)?;
        }
        Ok(())
    }

    fn reference(&mut self, of: &Ref) -> Result<(), AllocError> {
        if let Some(first) = of.of {
            self.name(first)?;
            self.put(".")?;
        }
        self.name(of.name)
    }

    fn side(&mut self, side: &Side) -> Result<(), AllocError> {
        match side {
            Side::Ref(variable) => self.reference(variable),
            Side::Name(name) => {
                self.put("'")?;
                self.name(*name)
            }
        }
    }

    fn bag(&mut self, word: &str, bag: &Bag) -> Result<(), AllocError> {
        if bag.len() == 0 {
            return Ok(());
        }
        self.gap()?;
        self.put(word)?;
        self.put("(")?;
        self.pairs(bag)?;
        self.put(")")
    }

    fn pairs(&mut self, bag: &Bag) -> Result<(), AllocError> {
        for pair in bag.as_slice() {
            self.gap()?;
            self.name(pair.0)?;
            self.put("=")?;
            self.side(&pair.1)?;
        }
        Ok(())
    }

    fn literal(&mut self, literal: &Literal) -> Result<(), AllocError> {
        self.gap()?;
        if let Some(handle) = &literal.handle {
            self.side(handle)?;
            self.put(":")?;
        }
        self.side(&literal.pred)?;
        self.put("(")?;
        for argument in literal.args.as_slice() {
            self.gap()?;
            self.side(argument)?;
        }
        self.put(")")
    }

    /// The parts of a node block but its kids.
    fn head(&mut self, node: &NodeBlock) -> Result<(), AllocError> {
        self.put("node(")?;
        match &node.name {
            Some(name) => self.reference(name)?,
            None => self.put("-")?,
        }
        self.put(match node.colour {
            None => " -",
            Some(Paint::Black) => " black",
            Some(Paint::White) => " white",
            Some(Paint::Red) => " red",
        })?;
        self.bag("own", &node.own)?;
        self.bag("top", &node.top)?;
        self.bag("bot", &node.bot)
    }

    /// A node block, its kids down to a depth.
    fn node(&mut self, node: &NodeBlock, depth: u32) -> Result<(), AllocError> {
        self.head(node)?;
        if depth > 0 && node.kids.len() > 0 {
            self.put(" kids(")?;
            for kid in node.kids.as_slice() {
                self.kid_word(kid)?;
                self.node(&kid.node, depth - 1)?;
                self.put(")")?;
            }
            self.put(")")?;
        }
        self.put(")")
    }

    fn kid_word(&mut self, kid: &Kid) -> Result<(), AllocError> {
        self.gap()?;
        self.put(if kid.loose { "loose(" } else { "kid(" })?;
        self.put(sign(kid.down))?;
        self.put(" ")
    }

    fn syn_item(&mut self, item: &SynItem) -> Result<(), AllocError> {
        self.gap()?;
        match item {
            SynItem::Node(node) => self.node(node, 9),
            SynItem::Relation(left, how, right) => {
                self.reference(left)?;
                self.put(sign(*how))?;
                self.reference(right)
            }
        }
    }

    /// A statement, its groups down to a depth.
    #[cycle(statements)]
    fn statement(&mut self, statement: &Statement, depth: u32) -> Result<(), AllocError> {
        self.gap()?;
        match statement {
            Statement::Group(body) => {
                self.put("group(")?;
                if depth > 0 {
                    self.body(body.as_slice(), depth - 1)?;
                }
            }
            Statement::Call(class) => {
                self.put("call(")?;
                self.name(*class)?;
            }
            Statement::Bind(variable, class) => {
                self.put("bind(")?;
                self.name(*variable)?;
                self.put(" ")?;
                self.name(*class)?;
            }
            Statement::Equation(left, right) => {
                self.put("equate(")?;
                self.reference(left)?;
                self.put(" ")?;
                self.side(right)?;
            }
            Statement::Syn(items) => {
                self.put("syn(")?;
                for item in items.as_slice() {
                    self.syn_item(item)?;
                }
            }
            Statement::Sem(literals) => {
                self.put("sem(")?;
                for literal in literals.as_slice() {
                    self.literal(literal)?;
                }
            }
            Statement::Iface(bag) => {
                self.put("iface(")?;
                self.pairs(bag)?;
            }
        }
        self.put(")")
    }

    /// The alternatives of a body, their groups down to a depth.
    #[cycle(statements)]
    fn body(&mut self, body: &[Alternative], depth: u32) -> Result<(), AllocError> {
        for alternative in body {
            self.gap()?;
            self.put("alt(")?;
            for statement in alternative.as_slice() {
                self.statement(statement, depth)?;
            }
            self.put(")")?;
        }
        Ok(())
    }

    fn class(&mut self, class: &Class) -> Result<(), AllocError> {
        self.put("class(")?;
        self.name(class.name)?;
        self.put(" import(")?;
        self.names(&class.imports)?;
        self.put(") export(")?;
        self.names(&class.exports)?;
        self.put(") declare(")?;
        self.names(&class.declares)?;
        self.put(") body(")?;
        self.body(class.body.as_slice(), 9)?;
        self.put("))")
    }

    fn header(&mut self, header: &Header) -> Result<(), AllocError> {
        match header {
            Header::Domain(name, values) => {
                self.put("type(")?;
                self.name(*name)?;
                match values {
                    None => self.put(" any")?,
                    Some(values) => self.names(values)?,
                }
            }
            Header::Property(name, domain) => {
                self.put("property(")?;
                self.name(*name)?;
                self.put(" ")?;
                self.name(*domain)?;
            }
            Header::Feature(name, domain) => {
                self.put("feature(")?;
                self.name(*name)?;
                self.put(" ")?;
                self.name(*domain)?;
            }
            Header::Principle(name, args, dimension) => {
                self.put("use(")?;
                self.name(*name)?;
                for argument in args.as_slice() {
                    self.put(" ")?;
                    self.name(argument.0)?;
                    if let Some(value) = argument.1 {
                        self.put("='")?;
                        self.name(value)?;
                    }
                }
                self.put(" ")?;
                self.name(*dimension)?;
            }
        }
        self.put(")")
    }

    fn item(&mut self, item: &Item) -> Result<(), AllocError> {
        match item {
            Item::Class(class) => self.class(class),
            Item::Value(name) => {
                self.put("value(")?;
                self.name(*name)?;
                self.put(")")
            }
            Item::Header(header) => self.header(header),
        }
    }
}
