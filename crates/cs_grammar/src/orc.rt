// Instruments, and entire orchestras.
ghost use Rattle.std.specs.Prelude.{◌≡◌, ◌≢◌, ◌↔◌, ◌≤◌, ◌<◌, ◌++◌, ◌∷◌, [], List, IsTrue, Ok, IfOk, length};
ghost use Rattle.cs_base.specs.declared.fault.Or.TheVariants as or;
ghost use Rattle.cs_base.specs.declared.fault.OrcFault.{OrcFault};
ghost use Rattle.cs_lex.specs.Lexed.{Lexed};
ghost use Rattle.cs_grammar.specs.declared.orc.ItemForm.TheVariants as item;
ghost use Rattle.cs_grammar.specs.{Reading.ended, inner.Rows.numbers};
ghost use Rattle.cs_grammar.specs.Tree.{block, instrument, orchestra};
ghost use Rattle.cs_grammar.specs.Lines.{header_line, instrument_number, one_number};
ghost use Rattle.cs_grammar.specs.inner.Answers.{Gives, IsDraft, IsInstrBody, ReadsOn};
ghost use Rattle.cs_grammar.specs.Orchestra.{item_form, item_form_of, nothing, ReadsInstr, ReadsOrc, Tree, ParseFault};
ghost use Rattle.cs_grammar.specs.Symbols.{Symbol, after};

use crate::parser::Parser;
use crate::scope::Scope;
use crate::symbol::{Expected, Kind};
use crate::tree::{HeadLine, Instr, Orc, Stmts};
use cs_base::{Excerpt, GREATEST_INSTRUMENT, Num, Numbers, ONE, Or, OrcFault, OrcKind};
use cs_lex::{Tokens, tokens_stand_in_the_text};
use cs_words::{HeadName, Keyword, NameSet, Word};
use indexmap::IndexSet;
use std::alloc::Global;

/// The next item outside instruments and definitions.
#[derive(Clone, Copy)]
pub enum ItemForm {
    Header(HeadName),
    Instr,
    Opcode,
    Statement,
    End,
}

impl ItemForm {
    fn of(kind: Kind, equals: bool) -> ItemForm
        ensures { result ≡ item_form_of kind equals }
    {
        match kind {
            Kind::End => ItemForm::End,
            Kind::Word(Word::Header(name)) if equals => ItemForm::Header(name),
            Kind::Word(Word::Keyword(Keyword::Instr)) => ItemForm::Instr,
            Kind::Word(Word::Keyword(Keyword::Opcode)) => ItemForm::Opcode,
            _ => ItemForm::Statement,
        }
    }
}

// The instrument number that a value denotes: an integer from 1 to `GREATEST_INSTRUMENT`.
fn instrument_number(value: Num) -> Option<u32>
    ensures { result ≡ instrument_number value }
{
    let raw = value.raw();
    if raw % ONE == 0 && ONE <= raw && raw <= GREATEST_INSTRUMENT as i64 * ONE {
        Some((raw / ONE) as u32)
    } else {
        None
    }
}

/// The part of an orchestra that has been read so far: its tree, the names of the opcodes that it defines,
/// and the numbers of its instruments.
#[derive(Drop)]
pub struct Draft<'s> {
    pub orc: Orc,
    pub defined: NameSet<'s>,
    pub given: IndexSet<u32>,
}

impl<'s> Draft<'s> {
    fn new(alloc: Global) -> Draft<'s>
        ensures orc { orchestra result.orc ≡ nothing }
        ensures defined { result.defined ≡ [] }
        ensures given { result.given.keys ≡ [] }
    {
        Draft {
            orc: Orc {
                head: Vec::new(alloc),
                opcodes: Vec::new(alloc),
                zero: Vec::new(alloc),
                instrs: Vec::new(alloc),
            },
            defined: NameSet::new(alloc),
            given: IndexSet::new(alloc),
        }
    }
}

impl<'s> Parser<'s> {
    fn item_form(&self) -> ItemForm
        ensures { result ≡ item_form self.now }
    {
        ItemForm::of(self.kind(), self.second_is(Expected::Equals))
    }

    // Reads a header line: its name, `=`, and a number.
    fn header_line(&mut self, scope: &Scope, name: HeadName) -> Result<HeadLine, Or<OrcFault>>
        ensures { Gives (λ h. h) result self.new (λ o. o ≡ header_line scope.now name self.old) }
    {
        let line = self.line();
        self.skip();
        self.skip();
        let Kind::Number(value) = self.kind() else {
            return Err(self.misfit(scope, OrcKind::Unexpected));
        };
        self.skip();
        self.end_line(scope)?;
        Ok(HeadLine { line, name, value })
    }

    // Reads an instrument number, which no earlier instrument may have.
    fn number(&mut self, scope: &Scope, given: &mut IndexSet<u32>) -> Result<u32, Or<OrcFault>>
        ensures reads { Gives (λ n. n) result self.new (λ o. o ≡ one_number scope.now given.old.keys self.old) }
        ensures given { IfOk result (λ n. given.new.keys ≡ given.old.keys ++ n ∷ []) }
        ensures goes { length self.new ≤ length self.old }
    {
        let Kind::Number(value) = self.kind() else {
            return Err(self.no_part(scope));
        };
        let Some(number) = instrument_number(value) else {
            return Err(self.fault(OrcKind::InstrNumber));
        };
        if given.contains(&number) {
            return Err(self.fault(OrcKind::InstrTwice));
        }
        given.insert(number)?;
        self.skip();
        Ok(number)
    }

    fn numbers(&mut self, scope: &Scope, given: &mut IndexSet<u32>) -> Result<Numbers, Or<OrcFault>>
        ensures reads { Gives (λ ns. ns) result self.new (λ o. o ≡ numbers scope.now given.old.keys self.old) }
        ensures given { IfOk result (λ ns. given.new.keys ≡ given.old.keys ++ ns) }
    {
        let mut numbers = Numbers::new(self.alloc());
        loop {
            numbers.push(self.number(scope, given)?)?;
            if !self.next_is(Expected::Comma) {
                return Ok(numbers);
            }
            self.skip();
        }
    }

    // Reads an instrument.
    fn instr(
        &mut self,
        defined: &NameSet<'s>,
        given: &mut IndexSet<u32>,
    ) -> Result<Instr, Or<OrcFault>>
        ensures reads { Gives instrument result self.new (ReadsInstr defined.now given.old.keys self.old) }
        ensures given { IfOk result (λ i. given.new.keys ≡ given.old.keys ++ i.numbers) }
    {
        let line = self.line();
        let scope = Scope::in_instrument(defined);
        let numbers = self.instr_line(&scope, given)?;
        let body = self.instr_body(&scope, defined)?;
        Ok(Instr {
            line,
            numbers,
            body,
        })
    }

    // Reads the line of `instr`.
    fn instr_line(
        &mut self,
        scope: &Scope,
        given: &mut IndexSet<u32>,
    ) -> Result<Numbers, Or<OrcFault>>
        ensures reads { Gives (λ ns. ns) result self.new
            (λ o. o ≡ ended scope.now (numbers scope.now given.old.keys (after self.old))) }
        ensures given { IfOk result (λ ns. given.new.keys ≡ given.old.keys ++ ns) }
    {
        self.skip();
        let numbers = self.numbers(scope, given)?;
        self.ended(scope, numbers)
    }

    // Reads the statements of an instrument, and the line of `endin`.
    fn instr_body(&mut self, scope: &Scope, defined: &NameSet<'s>) -> Result<Stmts, Or<OrcFault>>
        ensures { Gives (λ v. block v.items) result self.new (IsInstrBody scope.now defined.now self.old) }
    {
        let body = self.block(scope)?;
        let body = self.followed(scope, Expected::Endin, body)?;
        self.ended(&Scope::outside(defined), body)
    }

    // Reads a header line and adds it to the draft.
    fn add_header(&mut self, name: HeadName, draft: &mut Draft<'s>) -> Result<(), Or<OrcFault>>
        requires { item_form self.old ≡ item.Header name }
        ensures reads { (first : List Symbol) → IsDraft first draft.old self.old
            → ReadsOn result first (IsDraft first draft.new self.new) }
        ensures goes { IfOk result (λ _. length self.new < length self.old) }
    {
        let line = self.header_line(&Scope::outside(&draft.defined), name)?;
        draft.orc.head.push(line)?;
        Ok(())
    }

    // Reads an instrument and adds it to the draft.
    fn add_instr(&mut self, draft: &mut Draft<'s>) -> Result<(), Or<OrcFault>>
        requires { item_form self.old ≡ item.Instr }
        ensures reads { (first : List Symbol) → IsDraft first draft.old self.old
            → ReadsOn result first (IsDraft first draft.new self.new) }
        ensures goes { IfOk result (λ _. length self.new < length self.old) }
    {
        let instr = self.instr(&draft.defined, &mut draft.given)?;
        draft.orc.instrs.push(instr)?;
        Ok(())
    }

    // Reads a definition and adds it to the draft.
    fn add_definition(&mut self, draft: &mut Draft<'s>) -> Result<(), Or<OrcFault>>
        requires { item_form self.old ≡ item.Opcode }
        ensures reads { (first : List Symbol) → IsDraft first draft.old self.old
            → ReadsOn result first (IsDraft first draft.new self.new) }
        ensures goes { IfOk result (λ _. length self.new < length self.old) }
    {
        let heading = self.heading(&Scope::in_definition(b"".as_slice(), &draft.defined))?;
        let name = heading.name();
        let udo = self.under(heading, &draft.defined)?;
        draft.orc.opcodes.push(udo)?;
        draft.defined.add(name)?;
        Ok(())
    }

    // Reads a statement and adds it to the draft.
    fn add_stmt(&mut self, draft: &mut Draft<'s>) -> Result<(), Or<OrcFault>>
        requires { item_form self.old ≡ item.Statement }
        ensures reads { (first : List Symbol) → IsDraft first draft.old self.old
            → ReadsOn result first (IsDraft first draft.new self.new) }
        ensures goes { IfOk result (λ _. length self.new < length self.old) }
    {
        let stmt = self.stmt(&Scope::outside(&draft.defined))?;
        draft.orc.zero.push(stmt)?;
        Ok(())
    }

    // Reads the next item and adds it to the draft.
    fn add_item(&mut self, draft: &mut Draft<'s>) -> Result<(), Or<OrcFault>>
        requires { item_form self.old ≢ item.End }
        ensures reads { (first : List Symbol) → IsDraft first draft.old self.old
            → ReadsOn result first (IsDraft first draft.new self.new) }
        ensures goes { IfOk result (λ _. length self.new < length self.old) }
    {
        match self.item_form() {
            ItemForm::Header(name) => self.add_header(name, draft),
            ItemForm::Instr => self.add_instr(draft),
            ItemForm::Opcode => self.add_definition(draft),
            ItemForm::Statement => self.add_stmt(draft),
            ItemForm::End => Ok(()),
        }
    }

    // Reads all remaining items and adds them to the draft.
    fn add_items(&mut self, draft: &mut Draft<'s>) -> Result<(), Or<OrcFault>>
        ensures reads { (first : List Symbol) → IsDraft first draft.old self.old
            → ReadsOn result first (IsDraft first draft.new self.new) }
        ensures end { IfOk result (λ _. item_form self.new ≡ item.End) }
    {
        while !self.at_end() {
            self.add_item(draft)?;
        }
        Ok(())
    }

    // Reads an orchestra.
    fn orc(&mut self) -> Result<Orc, Or<OrcFault>>
        ensures { Gives orchestra result self.new (ReadsOrc [] [] (Ok self.old)) }
    {
        let mut draft = Draft::new(self.alloc());
        self.add_items(&mut draft)?;
        let Draft { orc, .. } = draft;
        Ok(orc)
    }

    fn at_end(&self) -> bool
        ensures { IsTrue result ↔ (item_form self.now ≡ item.End) }
    {
        matches!(self.kind(), Kind::End)
    }
}

/// Reads the tokens of a text into the tree of its orchestra, or returns its first fault, of kinds 5 to 11
/// and 20 to 23. Line numbers are taken from the tokens.
#[tactic(auto, using(crate::proofs::Steps::spanned))]
pub fn parse(alloc: Global, text: &Excerpt, tokens: &Tokens) -> Result<Orc, Or<OrcFault>>
    requires { Lexed text.now tokens.now }
    ensures tree { IfOk result (λ orc. Tree text.now.bytes tokens.now (orchestra orc)) }
    ensures fault { (f : OrcFault) → result ≡ Err (or.Fault f) → ParseFault text.now.bytes tokens.now f.line f.kind }
{
    // For the prover: the spans of all tokens are within the text.
    tokens_stand_in_the_text();
    let mut parser = Parser::new(alloc, text.bytes(), tokens.as_slice());
    parser.orc()
}
