ghost use Rattle.std.specs.Prelude.{◌≡◌, ◌<◌, ◌≤◌, ◌++◌, length, nat_le, is_some, false, Some, IfOk, IfSome};
ghost use Rattle.bk_asm.specs.Reading.{nothing_read, has_begun, with_limit, with_label, with_know, with_statement, know_line, form_at, forms_at, image_of};
ghost use Rattle.bk_text.specs.Faults.{at};
ghost use Rattle.bk_asm.specs.Faults.{Gives};

use crate::fault::{AsmFault, At, Kind, on_line};
use crate::labels::Labels;
use crate::line::Before;
use crate::statement::Statement;
use bk_image::{FIRST_LIMIT, FIRST_VERSION, INSTRUCTION_LIMIT, Image, SECOND_VERSION};
use bk_isa::Instr;
use bk_know::Know;
use std::alloc::{AllocError, Global};
use std::marker::Model;

/// What was read of a text so far. Contracts see its parts.
#[derive(Drop)]
pub(crate) struct Draft<'a> {
    limit: Option<u8>,
    statements: Vec<Statement<'a>>,
    knows: Vec<(u32, Know)>,
    pub labels: Labels<'a>,
    /// The know line of the next instruction.
    know: Option<Know>,
    /// Whether a label waits for an instruction.
    waits: bool,
}

impl<'a> Model for Draft<'a> {
    ghost use Rattle.bk_asm.specs.Reading.{Draft as Parts};
    ghost use Rattle.bk_asm.specs.Drafts.{IsDraft};

    ghost Value = { Parts };

    ghost view = { λ d. record {
      limit = d.limit;
      statements = d.statements.items;
      knows = d.knows.items;
      labels = d.labels;
      know = d.know;
      waits = d.waits;
    } };

    ghost invariant = { λ d. IsDraft (record {
      limit = d.limit;
      statements = d.statements.items;
      knows = d.knows.items;
      labels = d.labels;
      know = d.know;
      waits = d.waits;
    }) };
}

impl<'a> Draft<'a> {
    /// Nothing was read.
    pub fn new(alloc: Global) -> Draft<'a>
        ensures { result ≡ nothing_read }
    {
        Draft {
            limit: None,
            statements: Vec::new(alloc),
            knows: Vec::new(alloc),
            labels: Labels::new(alloc),
            know: None,
            waits: false,
        }
    }

    /// What is left open for the next line.
    pub fn before(&self) -> Before
        ensures { result
            ≡ record { begun = has_begun self.now; full = nat_le 256 (length self.now.statements); known = is_some self.now.know } }
    {
        Before {
            begun: self.limit.is_some()
                || self.waits
                || self.know.is_some()
                || !self.statements.is_empty(),
            full: self.statements.len() >= INSTRUCTION_LIMIT as usize,
            known: self.know.is_some(),
        }
    }

    /// With a limit, if a line gives one.
    pub fn with_limit(self, limit: Option<u8>) -> Draft<'a>
        requires { IfSome limit (λ n. (1 ≤ n) × (n ≤ 16)) }
        ensures value { result ≡ with_limit limit self.entry }
        ensures kept { length result.statements ≡ length self.entry.statements }
    {
        match limit {
            None => self,
            Some(_) => Draft { limit, ..self },
        }
    }

    /// With one more label for the next instruction.
    pub fn with_label(self, name: &'a [u8]) -> Result<Draft<'a>, AllocError>
        ensures { IfOk result (λ d. d ≡ with_label (Some name.now) self.entry) }
    {
        let Draft {
            limit,
            statements,
            knows,
            mut labels,
            know,
            ..
        } = self;
        labels.define(name, statements.len() as u32)?;
        Ok(Draft {
            limit,
            statements,
            knows,
            labels,
            know,
            waits: true,
        })
    }

    /// With a know line for the next instruction.
    pub fn with_know(self, know: Know) -> Draft<'a>
        ensures { result ≡ with_know (Some know) self.entry }
    {
        Draft {
            know: Some(know),
            ..self
        }
    }

    /// With one more instruction, for which there is room.
    pub fn with_statement(self, statement: Statement<'a>) -> Result<Draft<'a>, AllocError>
        requires { length self.statements < 256 }
        ensures { IfOk result (λ d. d ≡ with_statement (Some statement.entry) self.entry) }
    {
        let Draft {
            limit,
            mut statements,
            knows,
            labels,
            know,
            ..
        } = self;
        let knows = with_line(knows, statements.len() as u32, know)?;
        statements.push(statement)?;
        Ok(Draft {
            limit,
            statements,
            knows,
            labels,
            know: None,
            waits: false,
        })
    }

    /// The instruction of a statement, where no label waits.
    fn form_of(&self, statement: &Statement<'a>) -> Result<Instr, AsmFault>
        requires { self.now.waits ≡ false }
        ensures { Gives (λ i. i) result (form_at self.now.labels statement.now statement.now.target) }
    {
        match &statement.target {
            None => Ok(statement.with_last(statement.last())),
            Some(target) => match self.labels.place_of(target.name) {
                Some(place) => Ok(statement.with_last(place)),
                None => {
                    let fault = At {
                        column: target.column,
                        kind: Kind::LabelUndefined,
                    };
                    Err(on_line(target.line, fault))
                }
            },
        }
    }

    /// The instructions, where no label waits.
    fn forms(&self, alloc: Global) -> Result<Vec<Instr>, AsmFault>
        requires { self.now.waits ≡ false }
        ensures value { Gives (λ v. v.items) result (forms_at self.now.labels self.now.statements) }
        ensures count { IfOk result (λ v. length v.items ≡ length self.now.statements) }
    {
        let mut forms = Vec::new(alloc);
        for statement in &self.statements {
            let form = match self.form_of(statement) {
                Ok(form) => form,
                Err(fault) => return Err(fault),
            };
            forms.push(form)?;
        }
        Ok(forms)
    }

    /// The image, where the text has so many lines.
    #[tactic(auto, unfolding(crate::specs::Reading::image_of))]
    pub fn finish(self, alloc: Global, last: u64) -> Result<Image, AsmFault>
        ensures { Gives (λ i. i) result (image_of last self.entry) }
    {
        if self.waits || self.know.is_some() {
            return Err(on_line(last, start(Kind::WithoutInstruction)));
        }
        if self.statements.is_empty() {
            return Err(on_line(last, start(Kind::NoInstruction)));
        }
        let forms = self.forms(alloc)?;
        let (version, limit) = match self.limit {
            None => (FIRST_VERSION, FIRST_LIMIT),
            Some(limit) => (SECOND_VERSION, limit),
        };
        match Image::make(version, limit, forms, self.knows) {
            Some(image) => Ok(image),
            None => unreachable!(),
        }
    }
}

/// The know lines, and one more of this place where something is known of it.
fn with_line(
    knows: Vec<(u32, Know)>,
    place: u32,
    know: Option<Know>,
) -> Result<Vec<(u32, Know)>, AllocError>
    ensures { IfOk result (λ v. v.items ≡ knows.items ++ know_line place know) }
{
    let mut knows = knows;
    if let Some(know) = know {
        knows.push((place, know))?;
    }
    Ok(knows)
}

/// A fault of this kind where a line begins.
fn start(kind: Kind) -> At
    ensures { result ≡ at 1 kind }
{
    At { column: 1, kind }
}
