//! Objects, written token after token into a buffer.
ghost use Rattle.std.specs.Prelude.{◌≡◌, ◌∷◌, ◌++◌, [], ℕ, List, Option, IsTrue, IsUtf8, Some, OnOk, option_map};
ghost use Rattle.json.specs.Token.{Token, begin_object, end_object, begin_array, end_array, key};
ghost use Rattle.json.specs.Print.{print};
ghost use Rattle.serde_json.specs.Data.{Data, array, boolean, string};
ghost use Rattle.serde_json.specs.Read.{read, max_depth};
ghost use Rattle.serde_json.specs.View.{items_of};
ghost use Rattle.serde_json.specs.Written.{compact_text};
ghost use Rattle.json_objects.specs.Body.{object_in};
ghost use Rattle.json_objects.specs.Fields.{is_object};
ghost use Rattle.json_objects.specs.Objects.{number_data, object_of, time_data};
ghost use Rattle.json_objects.specs.Tokens.{tokens_of, field_after, fields_after, values_after, do_ascend};
ghost use Rattle.json_objects.specs.ReadBack.{CanBeRead, ReadBackLaws};

use json::Writer;
use moments::write_time;
use std::alloc::AllocError;
use std::marker::Model;
use units::{List as Bytes, Moment, Text};

/// Writes JSON at the end of a buffer, token after token: compact, with no value of JSON between. Contracts see what the
/// buffer had at first and the tokens after that.
#[derive(Drop)]
pub struct ObjectWriter {
    out: Writer,
    start: usize,
}

impl Model for ObjectWriter {
    ghost use Rattle.std.specs.Prelude.{◌≡◌, length};
    ghost use Rattle.json.specs.Written.{Written, written_code};

    ghost Value = { Written };

    ghost coded = { written_code };

    ghost view = { λ w. w.out };

    ghost invariant = { λ w. w.start ≡ length w.out.before };
}

impl ObjectWriter {
    /// Writes after what a buffer has, which takes no memory.
    pub fn new(buffer: Bytes<u8>) -> ObjectWriter
        ensures before { result.before ≡ buffer }
        ensures tokens { result.tokens ≡ [] }
    {
        let start = buffer.len();
        ObjectWriter {
            out: Writer::new(buffer.into_vec()),
            start,
        }
    }

    /// The buffer with what was written: where that is one value, its compact text, which reads as that value.
    pub fn into_bytes(self) -> Bytes<u8>
        ensures bytes { result ≡ self.before ++ print self.tokens }
        ensures utf8 { IsUtf8 (print self.tokens) }
        ensures text { (value : Data) → self.tokens ≡ tokens_of value → print self.tokens ≡ compact_text value }
        ensures reads { (value : Data) → self.tokens ≡ tokens_of value → CanBeRead max_depth value
            → read (print self.tokens) ≡ Some value }
        ensures object { (value : Data) → self.tokens ≡ tokens_of value → CanBeRead max_depth value
            → IsTrue (is_object value) → object_in (print self.tokens) ≡ Some value }
    {
        let ObjectWriter { out, .. } = self;
        Bytes::from_vec(out.into_inner())
    }

    /// The buffer as it was at first.
    pub fn discard(self) -> Bytes<u8>
        ensures { result ≡ self.before }
    {
        let ObjectWriter { out, start } = self;
        let mut buffer = out.into_inner();
        buffer.truncate(start);
        Bytes::from_vec(buffer)
    }

    /// Begins an object.
    pub fn begin_object(&mut self) -> Result<(), AllocError>
        ensures ok { OnOk result (self.new.tokens ≡ self.old.tokens ++ begin_object ∷ []) }
        ensures before { self.new.before ≡ self.old.before }
    {
        self.out.begin_object()
    }

    /// Ends an object: where fields of ascending names were written since it began, it is the object of these.
    pub fn end_object(&mut self) -> Result<(), AllocError>
        ensures ok { (before : List Token) (fields : List (List ℕ × Option Data))
            → self.old.tokens ≡ fields_after (before ++ begin_object ∷ []) fields → IsTrue (do_ascend fields)
            → OnOk result (self.new.tokens ≡ before ++ tokens_of (object_of fields)) }
        ensures token { OnOk result (self.new.tokens ≡ self.old.tokens ++ end_object ∷ []) }
        ensures before { self.new.before ≡ self.old.before }
    {
        self.out.end_object()
    }

    /// The name of the next value, which has to follow.
    pub fn name(&mut self, name: &str) -> Result<(), AllocError>
        ensures ok { OnOk result (self.new.tokens ≡ self.old.tokens ++ key name.now ∷ []) }
        ensures before { self.new.before ≡ self.old.before }
    {
        self.out.key(name)
    }

    /// Begins a list.
    pub fn begin_list(&mut self) -> Result<(), AllocError>
        ensures ok { OnOk result (self.new.tokens ≡ self.old.tokens ++ begin_array ∷ []) }
        ensures before { self.new.before ≡ self.old.before }
    {
        self.out.begin_array()
    }

    /// Ends a list: it is that of the values that were written since it began.
    pub fn end_list(&mut self) -> Result<(), AllocError>
        ensures ok { (before : List Token) (values : List Data) → self.old.tokens ≡ values_after (before ++ begin_array ∷ []) values
            → OnOk result (self.new.tokens ≡ before ++ tokens_of (array (items_of values))) }
        ensures token { OnOk result (self.new.tokens ≡ self.old.tokens ++ end_array ∷ []) }
        ensures before { self.new.before ≡ self.old.before }
    {
        self.out.end_array()
    }
}

// Whole fields, of which each is a name and a value.
#[tactic(auto, unfolding(crate::specs::Tokens::tokens_of, crate::specs::Tokens::field_after))]
impl ObjectWriter {
    /// A number under a name, where there is one.
    pub fn number(&mut self, name: &str, number: Option<u64>) -> Result<(), AllocError>
        ensures ok { OnOk result (self.new.tokens ≡ field_after self.old.tokens name.now (option_map number_data number)) }
        ensures before { self.new.before ≡ self.old.before }
    {
        match number {
            Some(number) => {
                self.out.key(name)?;
                self.out.u64(number)
            }
            None => Ok(()),
        }
    }

    /// A number of 32 bits under a name, where there is one.
    pub fn number_32(&mut self, name: &str, number: Option<u32>) -> Result<(), AllocError>
        ensures ok { OnOk result (self.new.tokens ≡ field_after self.old.tokens name.now (option_map number_data number)) }
        ensures before { self.new.before ≡ self.old.before }
    {
        match number {
            Some(number) => {
                self.out.key(name)?;
                self.out.u64(u64::from(number))
            }
            None => Ok(()),
        }
    }

    /// A text as the next item of a list.
    pub fn item(&mut self, text: &str) -> Result<(), AllocError>
        ensures ok { OnOk result (self.new.tokens ≡ self.old.tokens ++ tokens_of (string text.now)) }
        ensures before { self.new.before ≡ self.old.before }
    {
        self.out.string(text)
    }

    /// A text under a name.
    pub fn text(&mut self, name: &str, text: &str) -> Result<(), AllocError>
        ensures ok { OnOk result (self.new.tokens ≡ field_after self.old.tokens name.now (Some (string text.now))) }
        ensures before { self.new.before ≡ self.old.before }
    {
        self.out.key(name)?;
        self.out.string(text)
    }

    /// A text under a name, where there is one.
    pub fn text_if(&mut self, name: &str, text: &Option<Text>) -> Result<(), AllocError>
        ensures ok { OnOk result (self.new.tokens ≡ field_after self.old.tokens name.now (option_map string text.now)) }
        ensures before { self.new.before ≡ self.old.before }
    {
        match text {
            Some(text) => self.text(name, text.as_str()),
            None => Ok(()),
        }
    }

    /// A truth value under a name.
    pub fn boolean(&mut self, name: &str, value: bool) -> Result<(), AllocError>
        ensures ok { OnOk result (self.new.tokens ≡ field_after self.old.tokens name.now (Some (boolean value))) }
        ensures before { self.new.before ≡ self.old.before }
    {
        self.out.key(name)?;
        self.out.boolean(value)
    }

    /// A moment under a name, where there is one.
    pub fn time(&mut self, name: &str, moment: Option<Moment>) -> Result<(), AllocError>
        ensures ok { OnOk result (self.new.tokens ≡ field_after self.old.tokens name.now (option_map time_data moment)) }
        ensures before { self.new.before ≡ self.old.before }
    {
        match moment {
            Some(moment) => self.moment(name, moment),
            None => Ok(()),
        }
    }

    // A moment under a name.
    fn moment(&mut self, name: &str, moment: Moment) -> Result<(), AllocError>
        ensures ok { OnOk result (self.new.tokens ≡ field_after self.old.tokens name.now (Some (time_data moment))) }
        ensures before { self.new.before ≡ self.old.before }
    {
        let text = write_time(moment);
        match std::str::from_utf8(&text) {
            Ok(text) => self.text(name, text),
            Err(_) => Err(AllocError),
        }
    }
}

/// What is made of values that read back reads back: laws for proofs, which do nothing.
pub fn written_values_read_back()
    ensures { ReadBackLaws }
{}
