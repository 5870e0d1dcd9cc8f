//! The columns that a foreign key refers to (PostgreSQL source, tablecmds.c, ATAddForeignKeyConstraint).

ghost use Rattle.std.specs.Prelude.{◌≡◌, IfOk};
ghost use Rattle.aq_catalog.specs.Catalogs.{primary_cols};
ghost use Rattle.aq_setup.specs.References as references;

use aq_base::{ColNo, List, Reference};
use aq_catalog::{Catalog, copied_cols, number_of_table, numbers_of_columns, primary_cols};
use std::alloc::{AllocError, Global};

fn copied_primary(
    alloc: Global,
    catalog: &Catalog,
    table: usize,
) -> Result<Option<List<ColNo>>, AllocError>
    ensures { IfOk result (λ made. made ≡ primary_cols catalog.now table) }
{
    match primary_cols(catalog, table) {
        None => Ok(None),
        Some(cols) => Ok(Some(copied_cols(alloc, cols.as_slice())?)),
    }
}

/// The columns that a foreign key refers to: those that it names, or else those of the primary key. None where the table has none.
pub fn parent_cols(
    alloc: Global,
    catalog: &Catalog,
    r: &Reference,
) -> Result<Option<List<ColNo>>, AllocError>
    ensures { IfOk result (λ made. made ≡ references.parent_cols catalog.now r.now) }
{
    match &r.columns {
        None => copied_primary(alloc, catalog, number_of_table(catalog, &r.table)),
        Some(names) => {
            let cols = catalog.columns_of(&r.table);
            Ok(Some(numbers_of_columns(alloc, cols, names.as_slice())?))
        }
    }
}
