//! What the grammar sees of a token.
ghost use Rattle.std.specs.Prelude.{◌≡◌, ◌+◌, [], ◌∷◌};
ghost use Rattle.gr_grammar.specs.declared.brackets.Turn.{Turn as Turned};
ghost use Rattle.mg_reader.specs.Kinds.{high, kind_in, kind_number, low, not_of_width, of_width, sign_kind, signs, test, turn_of, word_kind, words};

use gr_grammar::brackets::Turn;
use gr_terms::Sym;
use gr_text::Place;

/// What a lexeme is: each sign and each word of the grammar is a kind of its own. The order is that
/// of the classes of the grammar, each of which is a stretch of it.
#[derive(Clone, Copy, Debug, PartialEq, Eq)]
pub enum Kind {
    /// `->`.
    Below,
    /// `->+`.
    BelowPlus,
    /// `->*`.
    BelowStar,
    /// `>>`.
    Next,
    /// `>>+`.
    NextPlus,
    /// `>>*`.
    NextStar,
    /// `=`.
    Equals,
    /// `>`.
    Greater,
    /// `<`.
    Less,
    /// `...`.
    Dots,
    /// `...+`.
    DotsPlus,
    /// `.`.
    Dot,
    /// `,,,`.
    Commas,
    /// `,`.
    Comma,
    /// `;`.
    Semicolon,
    /// `:`.
    Colon,
    /// `|`.
    Bar,
    /// `!`.
    Bang,
    /// `(`.
    LeftParen,
    /// `)`.
    RightParen,
    /// `[`.
    LeftBracket,
    /// `]`.
    RightBracket,
    /// `{`.
    LeftBrace,
    /// `}`.
    RightBrace,
    /// A variable.
    Var,
    /// A string.
    Str,
    /// The word `class`.
    Class,
    /// The word `import`.
    Import,
    /// The word `export`.
    Export,
    /// The word `declare`.
    Declare,
    /// The word `value`.
    Value,
    /// The word `node`.
    Node,
    /// The word `type`.
    Domain,
    /// The word `property`.
    Property,
    /// The word `feature`.
    Feature,
    /// The word `use`.
    Use,
    /// The word `anchor`.
    Anchor,
    /// The word `coanchor`.
    Coanchor,
    /// The word `subst`.
    Subst,
    /// The word `foot`.
    Foot,
    /// The word `lex`.
    Lex,
    /// The word `nadj`.
    Nadj,
    /// The word `with`.
    With,
    /// The word `dims`.
    Dims,
    /// The word `syn`.
    Syn,
    /// The word `sem`.
    Sem,
    /// The word `iface`.
    Iface,
    /// The word `black`.
    Black,
    /// The word `white`.
    White,
    /// The word `red`.
    Red,
    /// The word `top`.
    Top,
    /// The word `bot`.
    Bot,
    /// Any other word.
    Word,
    /// The word `color`.
    Color,
    /// The word `mark`.
    Mark,
    /// The word `cat`.
    Cat,
}

/// A token as the grammar sees it.
#[derive(Clone, Copy, Debug, PartialEq, Eq)]
pub struct Lexeme {
    /// What it is.
    pub kind: Kind,
    /// The number of the text of a word, a variable or a string.
    pub name: Sym,
    /// Where it stands.
    pub place: Place,
}

/// A class of lexemes.
#[derive(Clone, Copy, Debug, PartialEq, Eq)]
pub enum Class {
    /// Those of one kind.
    Is(Kind),
    /// The six relations and `=`.
    Operator,
    /// `...` and `...+`.
    Descent,
    /// Words and strings.
    Name,
    /// All words.
    Word,
    /// The words that name no class, as `node`.
    Reserved,
    /// All other words.
    Plain,
    /// The words but `color`, `mark` and `cat`.
    Property,
    /// The six words that mark a node.
    Marker,
    /// The words that are colours.
    Paint,
}

impl Kind {
    /// The number of the kind, in their order.
    pub fn number(self) -> u8
        ensures { result ≡ kind_number self }
    {
        self as u8
    }

    /// What a lexeme of the kind does to the brackets that are open.
    pub fn turn(self) -> Turn
        ensures { result ≡ turn_of self }
    {
        match self {
            Kind::LeftParen | Kind::LeftBracket | Kind::LeftBrace => Turn::Opens,
            Kind::RightParen | Kind::RightBracket | Kind::RightBrace => Turn::Closes,
            _ => Turn::Neither,
        }
    }

    /// The kind of the word.
    pub fn of_word(text: &str) -> Kind
        ensures { result ≡ word_kind text.now }
    {
        match text.len() {
            3 => Kind::of_three_letters(text),
            4 => Kind::of_four_letters(text),
            5 => Kind::of_five_letters(text),
            6 => Kind::of_six_letters(text),
            7 => Kind::of_seven_letters(text),
            8 => Kind::of_eight_letters(text),
            _ => Kind::Word,
        }
    }

    /// The kind of a word of three letters.
    fn of_three_letters(text: &str) -> Kind
        ensures { result ≡ kind_in (of_width 3 words) text.now }
    {
        match text.as_bytes() {
            b"use" => Kind::Use,
            b"lex" => Kind::Lex,
            b"syn" => Kind::Syn,
            b"sem" => Kind::Sem,
            b"red" => Kind::Red,
            b"top" => Kind::Top,
            b"bot" => Kind::Bot,
            b"cat" => Kind::Cat,
            _ => Kind::Word,
        }
    }

    /// The kind of a word of four letters.
    fn of_four_letters(text: &str) -> Kind
        ensures { result ≡ kind_in (of_width 4 words) text.now }
    {
        match text.as_bytes() {
            b"node" => Kind::Node,
            b"type" => Kind::Domain,
            b"foot" => Kind::Foot,
            b"nadj" => Kind::Nadj,
            b"with" => Kind::With,
            b"dims" => Kind::Dims,
            b"mark" => Kind::Mark,
            _ => Kind::Word,
        }
    }

    /// The kind of a word of five letters.
    fn of_five_letters(text: &str) -> Kind
        ensures { result ≡ kind_in (of_width 5 words) text.now }
    {
        match text.as_bytes() {
            b"class" => Kind::Class,
            b"value" => Kind::Value,
            b"subst" => Kind::Subst,
            b"iface" => Kind::Iface,
            b"black" => Kind::Black,
            b"white" => Kind::White,
            b"color" => Kind::Color,
            _ => Kind::Word,
        }
    }

    /// The kind of a word of six letters.
    fn of_six_letters(text: &str) -> Kind
        ensures { result ≡ kind_in (of_width 6 words) text.now }
    {
        match text.as_bytes() {
            b"import" => Kind::Import,
            b"export" => Kind::Export,
            b"anchor" => Kind::Anchor,
            _ => Kind::Word,
        }
    }

    /// The kind of a word of seven letters.
    fn of_seven_letters(text: &str) -> Kind
        ensures { result ≡ kind_in (of_width 7 words) text.now }
    {
        match text.as_bytes() {
            b"declare" => Kind::Declare,
            b"feature" => Kind::Feature,
            _ => Kind::Word,
        }
    }

    /// The kind of a word of eight letters.
    fn of_eight_letters(text: &str) -> Kind
        ensures { result ≡ kind_in (of_width 8 words) text.now }
    {
        match text.as_bytes() {
            b"property" => Kind::Property,
            b"coanchor" => Kind::Coanchor,
            _ => Kind::Word,
        }
    }

    /// The kind of the sign.
    pub fn of_sign(text: &str) -> Kind
        ensures { result ≡ sign_kind text.now }
    {
        if text.len() == 1 {
            Kind::of_lone_sign(text.as_bytes()[0])
        } else {
            Kind::of_long_sign(text)
        }
    }

    /// The kind of a sign of one byte.
    fn of_lone_sign(byte: u8) -> Kind
        ensures { result ≡ kind_in (of_width 1 signs) (byte ∷ []) }
    {
        match byte {
            b'=' => Kind::Equals,
            b'>' => Kind::Greater,
            b'<' => Kind::Less,
            b'.' => Kind::Dot,
            b',' => Kind::Comma,
            b';' => Kind::Semicolon,
            b':' => Kind::Colon,
            b'|' => Kind::Bar,
            b'!' => Kind::Bang,
            b'(' => Kind::LeftParen,
            b')' => Kind::RightParen,
            b'[' => Kind::LeftBracket,
            b']' => Kind::RightBracket,
            b'{' => Kind::LeftBrace,
            b'}' => Kind::RightBrace,
            _ => Kind::Word,
        }
    }

    /// The kind of a sign of more bytes than one.
    fn of_long_sign(text: &str) -> Kind
        ensures { result ≡ kind_in (not_of_width 1 signs) text.now }
    {
        match text {
            "->" => Kind::Below,
            "->+" => Kind::BelowPlus,
            "->*" => Kind::BelowStar,
            ">>" => Kind::Next,
            ">>+" => Kind::NextPlus,
            ">>*" => Kind::NextStar,
            "..." => Kind::Dots,
            "...+" => Kind::DotsPlus,
            ",,," => Kind::Commas,
            _ => Kind::Word,
        }
    }
}

impl Class {
    /// The first kind of the class, in their order.
    fn first(self) -> Kind
        ensures { kind_number result ≡ low self }
    {
        match self {
            Class::Is(kind) => kind,
            Class::Operator => Kind::Below,
            Class::Descent => Kind::Dots,
            Class::Name => Kind::Str,
            Class::Word | Class::Reserved | Class::Property => Kind::Class,
            Class::Plain | Class::Marker => Kind::Anchor,
            Class::Paint => Kind::Black,
        }
    }

    /// The last kind of the class, in their order. All kinds between the two are of it.
    fn last(self) -> Kind
        ensures { kind_number result + 1 ≡ high self }
    {
        match self {
            Class::Is(kind) => kind,
            Class::Operator => Kind::Equals,
            Class::Descent => Kind::DotsPlus,
            Class::Name | Class::Word | Class::Plain => Kind::Cat,
            Class::Reserved => Kind::Use,
            Class::Property => Kind::Word,
            Class::Marker => Kind::Nadj,
            Class::Paint => Kind::Red,
        }
    }

    /// Whether the lexeme is of the class.
    pub fn has(self, lexeme: &Lexeme) -> bool
        ensures { result ≡ test self lexeme.now }
    {
        let number = lexeme.kind.number();
        self.first().number() <= number && number <= self.last().number()
    }
}
