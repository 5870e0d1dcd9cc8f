//! Forms one after the other, with commas between them or none.
#![tactic(auto, using(crate::proofs::Printing::put_all_append, crate::proofs::Printing::separated_cons))]

ghost use Rattle.std.specs.Prelude.{◌≡◌, ◌∷◌, codes, OnOk};
ghost use Rattle.std.specs.List.{flat_map};
ghost use Rattle.aq_texts.specs.Written.{Mark, say, separated, listed, columns};
ghost use Rattle.aq_texts.specs.Canon.{perhaps};
ghost use Rattle.aq_print.specs.Printing.{put_all};
ghost use Rattle.aq_lex.specs.declared.token.Symbol.TheVariants.{Comma};

use crate::printer::Printer;
use aq_base::{List, NoMemory, TextVal};
use aq_lex::Symbol;

/// A form that is printed as tokens.
pub trait Prints {
    ghost use Rattle.std.specs.Prelude.{List};
    ghost use Rattle.aq_texts.specs.Written.{Written};

    ghost tokens: { Self → List Written };

    /// Prints the form. The error is want of memory.
    fn print(&self, printer: &mut Printer) -> Result<(), NoMemory>
        ensures { OnOk result (printer.new ≡ put_all printer.old (tokens self.now)) };
}

impl Prints for TextVal {
    ghost use Rattle.std.specs.Prelude.{[], ◌∷◌};
    ghost use Rattle.aq_texts.specs.Written.{Name};

    ghost tokens = { λ name. Name name ∷ [] };

    fn print(&self, printer: &mut Printer) -> Result<(), NoMemory> {
        printer.name(self)
    }
}

/// One form behind the other.
pub fn one_by_one<T: Prints>(printer: &mut Printer, forms: &[T]) -> Result<(), NoMemory>
    ensures { OnOk result (printer.new ≡ put_all printer.old (flat_map T.tokens forms.now)) }
{
    for form in forms {
        form.print(printer)?;
    }
    Ok(())
}

fn next_listed<T: Prints>(printer: &mut Printer, form: &T) -> Result<(), NoMemory>
    ensures { OnOk result (printer.new ≡ put_all printer.old (Mark Comma ∷ T.tokens form.now)) }
{
    printer.mark(Symbol::Comma)?;
    form.print(printer)
}

fn later_listed<T: Prints>(printer: &mut Printer, forms: &[T]) -> Result<(), NoMemory>
    ensures { OnOk result (printer.new ≡ put_all printer.old (flat_map (λ form. Mark Comma ∷ T.tokens form) forms.now)) }
{
    for form in forms {
        next_listed(printer, form)?;
    }
    Ok(())
}

/// Forms with commas between them.
pub fn listed<T: Prints>(printer: &mut Printer, forms: &[T]) -> Result<(), NoMemory>
    ensures { OnOk result (printer.new ≡ put_all printer.old (listed T.tokens forms.now)) }
{
    let Some((first, others)) = forms.split_first() else {
        return Ok(());
    };
    first.print(printer)?;
    later_listed(printer, others)
}

fn next_alternative<T: Prints>(printer: &mut Printer, form: &T) -> Result<(), NoMemory>
    ensures { OnOk result (printer.new ≡ put_all printer.old (say (codes "OR") ∷ T.tokens form.now)) }
{
    printer.word("OR")?;
    form.print(printer)
}

fn later_alternatives<T: Prints>(printer: &mut Printer, forms: &[T]) -> Result<(), NoMemory>
    ensures { OnOk result (printer.new ≡ put_all printer.old (flat_map (λ form. say (codes "OR") ∷ T.tokens form) forms.now)) }
{
    for form in forms {
        next_alternative(printer, form)?;
    }
    Ok(())
}

/// Forms with OR between them.
pub fn alternatives<T: Prints>(printer: &mut Printer, forms: &[T]) -> Result<(), NoMemory>
    ensures { OnOk result (printer.new ≡ put_all printer.old (separated (say (codes "OR")) T.tokens forms.now)) }
{
    let Some((first, others)) = forms.split_first() else {
        return Ok(());
    };
    first.print(printer)?;
    later_alternatives(printer, others)
}

/// Names in parentheses.
pub fn columns(printer: &mut Printer, names: &List<TextVal>) -> Result<(), NoMemory>
    ensures { OnOk result (printer.new ≡ put_all printer.old (columns names.now)) }
{
    printer.mark(Symbol::OpenParen)?;
    listed(printer, names.as_slice())?;
    printer.mark(Symbol::CloseParen)
}

/// Names in parentheses, where they are given.
pub fn columns_if_any(printer: &mut Printer, names: &Option<List<TextVal>>) -> Result<(), NoMemory>
    ensures { OnOk result (printer.new ≡ put_all printer.old (perhaps columns names.now)) }
{
    match names {
        None => Ok(()),
        Some(names) => columns(printer, names),
    }
}
