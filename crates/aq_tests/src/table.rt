//! Tables of questions and answers.
//!
//! A table is one text. A row begins with `==== ` and the question, and goes on with a line that begins with `---- ` and the answer.

use aq_base::NoMemory;
use std::alloc::Global;

/// What a table asks about.
pub(crate) trait Subject {
    /// The answer to a question, as a text.
    fn answer(&self, alloc: Global, question: &str) -> Result<String, NoMemory>;
}

fn is_right<S: Subject>(alloc: Global, subject: &S, row: &str) -> Result<bool, NoMemory> {
    let Some((question, answer)) = row.split_once("\n---- ") else {
        return Ok(false);
    };
    let found = subject.answer(alloc, question)?;
    Ok(answer.strip_suffix('\n') == Some(found.as_str()))
}

/// The number of the first row that is answered otherwise, counted from 1; 0 where there is no row.
pub(crate) fn first_wrong<S: Subject>(
    alloc: Global,
    subject: &S,
    table: &str,
) -> Result<Option<usize>, NoMemory> {
    let mut last = 0;
    for (number, row) in table.split("==== ").enumerate().skip(1) {
        if !is_right(alloc, subject, row)? {
            return Ok(Some(number));
        }
        last = number;
    }
    Ok(if last == 0 { Some(0) } else { None })
}
