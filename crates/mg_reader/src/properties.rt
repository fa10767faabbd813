//! Properties of node blocks.
ghost use Rattle.std.specs.Prelude.{◌≡◌, [], ◌∷◌};
ghost use Rattle.gr_grammar.specs.Grammars.{tok, part};
ghost use Rattle.mg_reader.specs.Grammar.{more_property_text, property_text};
ghost use Rattle.mg_reader.specs.Values.{more_property_of, paint_of, property_of};
ghost use Rattle.mg_reader.specs.Reading.{Takes};

use crate::cursor::{Cursor, Stop};
use crate::found::{Given, Property, paint_of};
use crate::lexeme::{Class, Kind};
use mg_syntax::Side;

impl<'a> Cursor<'a> {
    /// A property of a node block.
    pub(crate) fn property(&mut self) -> Result<Property, Stop>
        ensures { Takes property_text (λ ts rest m. property_of m) self.old.rest.now self.new.rest.now result }
    {
        if self.sees(&[Class::Is(Kind::Color)]) {
            let color = self.take(Class::Is(Kind::Color))?;
            let _equals = self.take(Class::Is(Kind::Equals))?;
            let paint = self.take(Class::Paint)?;
            Ok(Property {
                key: color,
                given: Given::Paint(paint_of(paint.kind)),
            })
        } else if self.sees(&[Class::Is(Kind::Mark)]) {
            let mark = self.take(Class::Is(Kind::Mark))?;
            let _is = self.take(Class::Is(Kind::Equals))?;
            let marker = self.take(Class::Marker)?;
            Ok(Property {
                key: mark,
                given: Given::Value(Side::Name(marker.name)),
            })
        } else {
            let key = self.take(Class::Property)?;
            let _sign = self.take(Class::Is(Kind::Equals))?;
            let value = self.side()?;
            Ok(Property {
                key,
                given: Given::Value(value),
            })
        }
    }

    /// A comma and a property.
    pub(crate) fn more_property(&mut self) -> Result<Property, Stop>
        ensures { Takes more_property_text (λ ts rest m. more_property_of m) self.old.rest.now self.new.rest.now result }
    {
        let _comma = self.take(Class::Is(Kind::Comma))?;
        let property = self.property()?;
        Ok(property)
    }
}
