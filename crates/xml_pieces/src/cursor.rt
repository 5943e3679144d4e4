//! A cursor over a text that takes pieces off its front.
ghost use Rattle.std.specs.Prelude.{◌≡◌, [], length};
ghost use Rattle.xml_pieces.specs.Reading as spec;
ghost use Rattle.xml_pieces.specs.Reads.{Gives, Reads, Answers, Eats};
ghost use Rattle.xml_pieces.specs.Runs.{class_test};
ghost use Rattle.xml_pieces.specs.Written as written;
ghost use Rattle.xml_pieces.specs.Written.{strip, is_quote};

use crate::bytes::{
    Class, all_space, is_attribute_byte, is_empty, is_quote, run_len, strip, until,
};
use crate::names::are_distinct;
use crate::part::{Part, push_part};
use crate::piece::{AttributeText, Piece, Tag};
use crate::read_error::ReadError;
use crate::texts::{char_of, is_utf8, text_of};
use chan_values::{Bytes, Text};
use sqlite_items::Items;
use std::alloc::Global;
use std::marker::Model;

/// A text that is not read yet, which contracts see as its bytes.
#[derive(Drop)]
pub struct Cursor<'a> {
    rest: &'a [u8],
}

impl<'a> Model for Cursor<'a> {
    ghost use Rattle.std.specs.Prelude.{ℕ, List};

    ghost Value = { List ℕ };

    ghost view = { λ c. c.rest.now };
}

impl<'a> Cursor<'a> {
    /// A cursor at the start of a text.
    pub fn new(text: &'a [u8]) -> Cursor<'a>
        ensures { result ≡ text.now }
    {
        Cursor { rest: text }
    }

    /// The bytes that are left.
    pub fn rest(&self) -> &'a [u8]
        ensures { result.now ≡ self.now }
    {
        self.rest
    }

    /// How many bytes are left.
    pub fn left(&self) -> usize
        ensures { result ≡ length self.now }
    {
        self.rest.len()
    }

    /// Whether no byte is left.
    pub fn is_empty(&self) -> bool
        ensures { result ≡ written.is_empty self.now }
    {
        is_empty(self.rest)
    }

    /// The next byte, or 0 at the end.
    fn first(&self) -> u8
        ensures { result ≡ spec.first self.now }
    {
        match self.rest {
            [] => 0,
            [b, ..] => *b,
        }
    }

    /// The bytes of a class that stand next.
    #[tactic(auto, using(crate::proofs::Runs::runs))]
    fn run(&mut self, class: Class) -> &'a [u8]
        ensures run { result.now ≡ spec.run (class_test class) self.old }
        ensures after { self.new ≡ spec.after (class_test class) self.old }
    {
        let rest = self.rest;
        let (front, more) = rest.split_at(run_len(rest, class));
        self.rest = more;
        front
    }

    /// The bytes of a class that stand next, at least one.
    #[tactic(auto, unfolding(crate::specs::Reading::some_of))]
    fn some_of(&mut self, class: Class) -> Result<&'a [u8], ReadError>
        ensures { Gives (λ r. r.now) (spec.some_of (class_test class) self.old) result self.new }
    {
        let front = self.run(class);
        match front {
            [] => Err(ReadError::Fault),
            [_, ..] => Ok(front),
        }
    }

    /// Takes a mark, if it stands next.
    fn eat(&mut self, mark: &[u8]) -> bool
        ensures { Eats (strip mark.now self.old) result self.old self.new }
    {
        let rest = self.rest;
        match strip(mark, rest) {
            Some(more) => {
                self.rest = more;
                true
            }
            None => false,
        }
    }

    /// Takes a mark, which has to stand next.
    #[tactic(auto, unfolding(crate::specs::Reading::exactly))]
    fn exactly(&mut self, mark: &[u8]) -> Result<(), ReadError>
        ensures { Reads (spec.exactly mark.now self.old) result self.new }
    {
        if self.eat(mark) {
            Ok(())
        } else {
            Err(ReadError::Fault)
        }
    }

    /// The next byte, which has to be a quote.
    #[tactic(auto, unfolding(crate::specs::Reading::one))]
    fn quote(&mut self) -> Result<u8, ReadError>
        ensures { Reads (spec.one is_quote self.old) result self.new }
    {
        let ahead = self.rest;
        let [b, rest @ ..] = ahead else {
            return Err(ReadError::Fault);
        };
        if !is_quote(*b) {
            return Err(ReadError::Fault);
        }
        self.rest = rest;
        Ok(*b)
    }

    /// The character of a reference by number, behind its `#` or `#x`.
    #[tactic(auto, unfolding(crate::specs::Reading::number))]
    fn number(&mut self, is_hexadecimal: bool) -> Result<Part, ReadError>
        ensures { Reads (spec.number is_hexadecimal self.old) result self.new }
    {
        let class = if is_hexadecimal {
            Class::Hexadecimal
        } else {
            Class::Decimal
        };
        let digits = self.some_of(class)?;
        self.exactly(b";")?;
        match char_of(digits, is_hexadecimal) {
            Some(c) => Ok(Part::Char(c)),
            None => Err(ReadError::Fault),
        }
    }

    /// What a reference stands for, behind its `&`.
    #[tactic(auto, unfolding(crate::specs::Reading::reference, crate::specs::Reading::either_mark))]
    fn reference(&mut self) -> Result<Part, ReadError>
        ensures { Reads (spec.reference self.old) result self.new }
    {
        if self.eat(b"lt;") {
            Ok(Part::Byte(b'<'))
        } else if self.eat(b"gt;") {
            Ok(Part::Byte(b'>'))
        } else if self.eat(b"amp;") {
            Ok(Part::Byte(b'&'))
        } else if self.eat(b"quot;") {
            Ok(Part::Byte(b'"'))
        } else if self.eat(b"apos;") {
            Ok(Part::Byte(b'\''))
        } else if self.eat(b"#x") {
            self.number(true)
        } else if self.eat(b"#") {
            self.number(false)
        } else {
            Err(ReadError::Fault)
        }
    }

    /// The next part of a value.
    #[tactic(auto, unfolding(crate::specs::Reading::value_part))]
    fn value_part(&mut self) -> Result<Part, ReadError>
        ensures { Reads (spec.value_part self.old) result self.new }
    {
        let ahead = self.rest;
        let [b, rest @ ..] = ahead else {
            return Err(ReadError::Fault);
        };
        if *b == b'<' {
            return Err(ReadError::Fault);
        }
        self.rest = rest;
        if *b == b'&' {
            return self.reference();
        }
        Ok(Part::Byte(*b))
    }

    /// A value between quotes.
    #[tactic(auto, unfolding(crate::specs::Reading::quoted))]
    fn quoted(&mut self, alloc: Global) -> Result<Text, ReadError>
        ensures { Reads (spec.quoted self.old) result self.new }
    {
        let quote = self.quote()?;
        let raw = self.run(Class::But(quote));
        self.exactly(&[quote])?;
        let value = value(alloc, raw)?;
        text_of(alloc, value.as_slice())
    }

    /// An attribute behind the white space before it.
    #[tactic(auto, unfolding(crate::specs::Reading::attribute))]
    fn attribute(&mut self, alloc: Global) -> Result<AttributeText, ReadError>
        ensures { Reads (spec.attribute self.old) result self.new }
    {
        let name = self.some_of(Class::AttributeName)?;
        self.run(Class::Space);
        self.exactly(b"=")?;
        self.run(Class::Space);
        let value = self.quoted(alloc)?;
        let name = text_of(alloc, name)?;
        Ok(AttributeText { name, value })
    }

    /// Attributes, each behind white space, and the white space behind them.
    #[tactic(auto, unfolding(crate::specs::Reading::attributes_from))]
    fn attributes(&mut self, alloc: Global) -> Result<Items<AttributeText>, ReadError>
        ensures { Reads (spec.attributes_from (length self.old) [] self.old) result self.new }
    {
        let mut found = Items::new(alloc);
        for _turn in 0..self.left() {
            let gap = self.run(Class::Space);
            if !is_attribute_byte(self.first()) {
                return Ok(found);
            }
            if is_empty(gap) {
                return Err(ReadError::Fault);
            }
            let next = self.attribute(alloc)?;
            found.push(next)?;
        }
        Ok(found)
    }

    /// The end of a start tag or of an empty tag.
    #[tactic(auto, unfolding(crate::specs::Reading::close, crate::specs::Reading::either_mark))]
    fn close(&mut self, tag: Tag) -> Result<Piece, ReadError>
        ensures { Reads (spec.close tag self.old) result self.new }
    {
        if self.eat(b"/>") {
            return Ok(Piece::Empty(tag));
        }
        self.exactly(b">")?;
        Ok(Piece::Start(tag))
    }

    /// A start tag or an empty tag, behind its `<`.
    #[tactic(auto, unfolding(crate::specs::Reading::opening))]
    fn opening(&mut self, alloc: Global) -> Result<Piece, ReadError>
        ensures { Reads (spec.opening self.old) result self.new }
    {
        let name = self.some_of(Class::TagName)?;
        let attributes = self.attributes(alloc)?;
        if !are_distinct(alloc, attributes.as_slice())? {
            return Err(ReadError::Fault);
        }
        let name = text_of(alloc, name)?;
        self.close(Tag { name, attributes })
    }

    /// An end tag, behind its `</`.
    #[tactic(auto, unfolding(crate::specs::Reading::closing))]
    fn closing(&mut self, alloc: Global) -> Result<Piece, ReadError>
        ensures { Reads (spec.closing self.old) result self.new }
    {
        let name = self.some_of(Class::TagName)?;
        self.run(Class::Space);
        self.exactly(b">")?;
        Ok(Piece::End(text_of(alloc, name)?))
    }

    /// The bytes before the first mark, which is taken too.
    fn until(&mut self, mark: &[u8]) -> Result<&'a [u8], ReadError>
        ensures { Gives (λ r. r.now) (spec.until mark.now self.old) result self.new }
    {
        match until(mark, self.rest) {
            Some((front, more)) => {
                self.rest = more;
                Ok(front)
            }
            None => Err(ReadError::Fault),
        }
    }

    /// The bytes before the first mark, which is taken too, where they are UTF-8.
    fn text_until(&mut self, mark: &[u8]) -> Result<&'a [u8], ReadError>
        ensures { Gives (λ r. r.now) (spec.text_until mark.now self.old) result self.new }
    {
        let inside = self.until(mark)?;
        if is_utf8(inside) {
            Ok(inside)
        } else {
            Err(ReadError::Fault)
        }
    }

    /// Text up to a tag or the end.
    #[tactic(auto, unfolding(crate::specs::Reading::text))]
    fn text(&mut self) -> Result<Piece, ReadError>
        ensures { Reads (spec.text self.old) result self.new }
    {
        let bytes = self.some_of(Class::But(b'<'))?;
        if !is_utf8(bytes) {
            Err(ReadError::Fault)
        } else if all_space(bytes) {
            Ok(Piece::Blank)
        } else {
            Ok(Piece::Stray)
        }
    }

    /// The next piece. A `Fault` says that no piece stands there, and so that the text is at its end or is not well formed. Takes time that
    /// grows with the piece's bytes.
    #[tactic(auto, unfolding(crate::specs::Reading::a_piece, crate::specs::Reading::either_mark))]
    pub fn piece(&mut self, alloc: Global) -> Result<Piece, ReadError>
        ensures { Reads (spec.a_piece self.old) result self.new }
    {
        if self.eat(b"<!--") {
            self.text_until(b"-->")?;
            return Ok(Piece::Comment);
        }
        if self.eat(b"<![CDATA[") {
            let inside = self.until(b"]]>")?;
            return Ok(Piece::Data(text_of(alloc, inside)?));
        }
        if self.eat(b"<?xml") {
            self.text_until(b"?>")?;
            return Ok(Piece::Declaration);
        }
        if self.eat(b"</") {
            return self.closing(alloc);
        }
        if self.eat(b"<") {
            return self.opening(alloc);
        }
        self.text()
    }
}

/// The value that bytes stand for.
#[tactic(auto, unfolding(crate::specs::Reading::value_from))]
fn value(alloc: Global, raw: &[u8]) -> Result<Bytes, ReadError>
    ensures { Answers (spec.value_from (length raw.now) [] raw.now) result }
{
    let mut found = Bytes::new(alloc);
    let mut rest = Cursor::new(raw);
    for _turn in 0..raw.len() {
        if rest.is_empty() {
            return Ok(found);
        }
        let part = rest.value_part()?;
        push_part(&mut found, part)?;
    }
    if rest.is_empty() {
        Ok(found)
    } else {
        Err(ReadError::Fault)
    }
}
