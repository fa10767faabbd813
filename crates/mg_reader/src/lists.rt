//! Bags, and lists of properties and features, in which no attribute may stand twice.
ghost use Rattle.std.specs.Prelude.{◌≡◌, [], ◌∷◌};
ghost use Rattle.gr_grammar.specs.Grammars.{tok, part};
ghost use Rattle.mg_reader.specs.Grammar.{bag_text, feature_list_text, feature_text, features_text, more_feature_text, pairs_text, perhaps_features_text, perhaps_pairs_text, perhaps_properties_text, properties_text, property_list_text};
ghost use Rattle.mg_reader.specs.Values.{bag_of, feature_list_of, feature_of, features_of, more_feature_of, pairs_of, perhaps_features_of, perhaps_pairs_of, perhaps_properties_of, properties_of, property_list_of};
ghost use Rattle.mg_reader.specs.Complaints.{bag_bad, feature_bad, feature_list_bad, feature_read, features_bad, more_feature_read, pairs_bad, perhaps_features_bad, perhaps_pairs_bad, perhaps_properties_bad, properties_bad, property_list_bad};
ghost use Rattle.mg_reader.specs.Reading.{Reads};

use crate::cursor::{Stop, push};
use crate::found::{Feature, Features, Properties};
use crate::lexeme::{Class, Kind};
use crate::notes::{again_at, note};
use crate::reader::Reader;
use mg_syntax::{Bag, Row};
use std::alloc::Global;

impl<'a> Reader<'a> {
    /// Pairs, with commas between them.
    fn pairs(&mut self, alloc: Global) -> Result<Bag, Stop>
        ensures { Reads pairs_text (λ ts rest m. pairs_of m) (λ ts rest m. pairs_bad m) self.old.cursor.rest.now self.new.cursor.rest.now self.old.complaint self.new.complaint result }
    {
        let mut bag = Row::new(alloc);
        let first = self.cursor.pair()?;
        self.attributes.clear();
        let _noted = note(&mut self.attributes, &mut self.complaint, first.key)?;
        let _first = push(&mut bag, (first.key.name, first.value))?;
        'rows: while self.cursor.sees(&[Class::Is(Kind::Comma)]) {
            let more = self.cursor.more_pair()?;
            let _again = note(&mut self.attributes, &mut self.complaint, more.key)?;
            let _more = push(&mut bag, (more.key.name, more.value))?;
        }
        Ok(bag)
    }

    /// Properties, with commas between them.
    fn properties(&mut self, alloc: Global) -> Result<Properties, Stop>
        ensures { Reads properties_text (λ ts rest m. properties_of m) (λ ts rest m. properties_bad m) self.old.cursor.rest.now self.new.cursor.rest.now self.old.complaint self.new.complaint result }
    {
        let mut properties = Properties::new(alloc);
        let first = self.cursor.property()?;
        self.attributes.clear();
        let _noted = note(&mut self.attributes, &mut self.complaint, first.key)?;
        let _first = properties.put(first)?;
        'rows: while self.cursor.sees(&[Class::Is(Kind::Comma)]) {
            let more = self.cursor.more_property()?;
            let _again = note(&mut self.attributes, &mut self.complaint, more.key)?;
            let _more = properties.put(more)?;
        }
        Ok(properties)
    }

    /// A feature, where these are found before it.
    fn feature(&mut self, alloc: Global, found: &Features) -> Result<Feature, Stop>
        ensures { Reads feature_text (λ ts rest m. feature_of m) (λ ts rest m. feature_bad found.now (feature_read m)) self.old.cursor.rest.now self.new.cursor.rest.now self.old.complaint self.new.complaint result }
    {
        if self.cursor.sees(&[Class::Is(Kind::Cat)]) {
            let cat = self.cursor.take(Class::Is(Kind::Cat))?;
            let known = found.category.is_some();
            self.complaint = again_at(self.complaint, known, cat);
            let _equals = self.cursor.take(Class::Is(Kind::Equals))?;
            let value = self.cursor.side()?;
            Ok(Feature::Category(value))
        } else if self.cursor.sees(&[Class::Is(Kind::Top)]) {
            let top = self.cursor.take(Class::Is(Kind::Top))?;
            let known = found.top.is_some();
            self.complaint = again_at(self.complaint, known, top);
            let _is = self.cursor.take(Class::Is(Kind::Equals))?;
            let bag = self.bag(alloc)?;
            Ok(Feature::Top(bag))
        } else {
            let bot = self.cursor.take(Class::Is(Kind::Bot))?;
            let known = found.bottom.is_some();
            self.complaint = again_at(self.complaint, known, bot);
            let _sign = self.cursor.take(Class::Is(Kind::Equals))?;
            let pairs = self.bag(alloc)?;
            Ok(Feature::Bottom(pairs))
        }
    }

    /// A comma and a feature, where these are found before it.
    fn more_feature(&mut self, alloc: Global, found: &Features) -> Result<Feature, Stop>
        ensures { Reads more_feature_text (λ ts rest m. more_feature_of m) (λ ts rest m. feature_bad found.now (more_feature_read m)) self.old.cursor.rest.now self.new.cursor.rest.now self.old.complaint self.new.complaint result }
    {
        let _comma = self.cursor.take(Class::Is(Kind::Comma))?;
        let feature = self.feature(alloc, found)?;
        Ok(feature)
    }

    /// Features, with commas between them.
    fn features(&mut self, alloc: Global) -> Result<Features, Stop>
        ensures { Reads features_text (λ ts rest m. features_of m) (λ ts rest m. features_bad m) self.old.cursor.rest.now self.new.cursor.rest.now self.old.complaint self.new.complaint result }
    {
        let mut found = Features::new();
        let first = self.feature(alloc, &found)?;
        found.put(first);
        'rows: while self.cursor.sees(&[Class::Is(Kind::Comma)]) {
            let more = self.more_feature(alloc, &found)?;
            found.put(more);
        }
        Ok(found)
    }

    /// Pairs, if there are some.
    fn perhaps_pairs(&mut self, alloc: Global) -> Result<Bag, Stop>
        ensures { Reads perhaps_pairs_text (λ ts rest m. perhaps_pairs_of m) (λ ts rest m. perhaps_pairs_bad m) self.old.cursor.rest.now self.new.cursor.rest.now self.old.complaint self.new.complaint result }
    {
        if self.cursor.sees(&[Class::Word]) {
            let pairs = self.pairs(alloc)?;
            Ok(pairs)
        } else {
            Ok(Row::new(alloc))
        }
    }

    /// Pairs in brackets.
    pub(crate) fn bag(&mut self, alloc: Global) -> Result<Bag, Stop>
        ensures { Reads bag_text (λ ts rest m. bag_of m) (λ ts rest m. bag_bad m) self.old.cursor.rest.now self.new.cursor.rest.now self.old.complaint self.new.complaint result }
    {
        let _open = self.cursor.take(Class::Is(Kind::LeftBracket))?;
        let pairs = self.perhaps_pairs(alloc)?;
        let _close = self.cursor.take(Class::Is(Kind::RightBracket))?;
        Ok(pairs)
    }

    /// Properties, if there are some.
    fn perhaps_properties(&mut self, alloc: Global) -> Result<Properties, Stop>
        ensures { Reads perhaps_properties_text (λ ts rest m. perhaps_properties_of m) (λ ts rest m. perhaps_properties_bad m) self.old.cursor.rest.now self.new.cursor.rest.now self.old.complaint self.new.complaint result }
    {
        if self.cursor.sees(&[
            Class::Is(Kind::Color),
            Class::Is(Kind::Mark),
            Class::Property,
        ]) {
            let properties = self.properties(alloc)?;
            Ok(properties)
        } else {
            Ok(Properties::new(alloc))
        }
    }

    /// The properties of a node block, in brackets, or none.
    pub(crate) fn property_list(&mut self, alloc: Global) -> Result<Properties, Stop>
        ensures { Reads property_list_text (λ ts rest m. property_list_of m) (λ ts rest m. property_list_bad m) self.old.cursor.rest.now self.new.cursor.rest.now self.old.complaint self.new.complaint result }
    {
        if self.cursor.sees(&[Class::Is(Kind::LeftParen)]) {
            let _open = self.cursor.take(Class::Is(Kind::LeftParen))?;
            let properties = self.perhaps_properties(alloc)?;
            let _close = self.cursor.take(Class::Is(Kind::RightParen))?;
            Ok(properties)
        } else {
            Ok(Properties::new(alloc))
        }
    }

    /// Features, if there are some.
    fn perhaps_features(&mut self, alloc: Global) -> Result<Features, Stop>
        ensures { Reads perhaps_features_text (λ ts rest m. perhaps_features_of m) (λ ts rest m. perhaps_features_bad m) self.old.cursor.rest.now self.new.cursor.rest.now self.old.complaint self.new.complaint result }
    {
        if self.cursor.sees(&[
            Class::Is(Kind::Cat),
            Class::Is(Kind::Top),
            Class::Is(Kind::Bot),
        ]) {
            let features = self.features(alloc)?;
            Ok(features)
        } else {
            Ok(Features::new())
        }
    }

    /// The features of a node block, in brackets, or none.
    pub(crate) fn feature_list(&mut self, alloc: Global) -> Result<Features, Stop>
        ensures { Reads feature_list_text (λ ts rest m. feature_list_of m) (λ ts rest m. feature_list_bad m) self.old.cursor.rest.now self.new.cursor.rest.now self.old.complaint self.new.complaint result }
    {
        if self.cursor.sees(&[Class::Is(Kind::LeftBracket)]) {
            let _open = self.cursor.take(Class::Is(Kind::LeftBracket))?;
            let features = self.perhaps_features(alloc)?;
            let _close = self.cursor.take(Class::Is(Kind::RightBracket))?;
            Ok(features)
        } else {
            Ok(Features::new())
        }
    }
}
