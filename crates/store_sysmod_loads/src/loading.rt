//! The rows of `++VER`s and of `++IF`s: one table has those of the first `++VER`s for each SREL, and another those of
//! the further ones.

ghost use Rattle.std.specs.Prelude.{◌≡◌, ◌⊎◌, ◌++◌, List, IfOk, IsErrOf, IsPermutation};
ghost use Rattle.std.specs.List.{AllByRecursion};
ghost use Rattle.sqlite.specs.Held.{state};
ghost use Rattle.sqlite.specs.State.{HasCleanDisk};
ghost use Rattle.store_rows.specs.Reads.{OnlyReads};
ghost use Rattle.store_rows.specs.Rows.{Contents, HasContents};
ghost use Rattle.store_schema.specs.declared.schema.Schema.{Schema as ARelease};
ghost use Rattle.store_schema.specs.Earlier.{schema_under};
ghost use Rattle.terms.specs.Rising.{Rises};
ghost use Rattle.store_sysmod_loads.specs.Both.{AreOfBoth, AreRowsIn, LoadsRows};

use sqlite::{Alter, Connection};
use std::alloc::{AllocError, Global};
use store_rows::{FromRow, ReadError};
use store_schema::{Query, Schema, load_query};
use store_sysmods::{
    IfRow, Ifs, MoreIfs, MoreVers, VerRow, Vers, WholeTable, load_sorted, sort_by_keys,
};

/// A row of which each of two tables has some, with the same keys; the second table came with schema 3.
pub(crate) trait InTwoTables: Drop {
    ghost use Rattle.std.specs.Prelude.{◌≡◌};
    ghost use Rattle.store_schema.specs.declared.schema.Schema.{Schema as ARelease};
    ghost use Rattle.store_schema.specs.declared.schema.Schema.TheVariants.{Third};

    type Firsts: FromRow<Item = Self> + WholeTable<Rows = Self::Firsts>;

    type Furthers: FromRow<Item = Self> + Query<Rows = Self::Furthers>;

    ghost whole: { Self.Furthers.width ≡ 0 };

    ghost each: { (r : ARelease) → Self.Firsts.knows r };

    ghost third: { Self.Furthers.knows Third };
}

impl InTwoTables for VerRow {
    ghost use Rattle.std.specs.Prelude.{refl};

    type Firsts = Vers;

    type Furthers = MoreVers;

    ghost whole = { refl };

    ghost each = { λ r. tt };

    ghost third = { refl };
}

impl InTwoTables for IfRow {
    ghost use Rattle.std.specs.Prelude.{refl};

    type Firsts = Ifs;

    type Furthers = MoreIfs;

    ghost whole = { refl };

    ghost each = { λ r. tt };

    ghost third = { refl };
}

// The items of both lists as one list, sorted by their keys.
fn append_and_sort<T: WholeTable>(
    mut items: Vec<<T::Rows as FromRow>::Item>,
    mut more: Vec<<T::Rows as FromRow>::Item>,
) -> Result<Vec<<T::Rows as FromRow>::Item>, AllocError>
    ensures same { IfOk result (λ all. IsPermutation (items.items ++ more.items) all.items) }
    ensures only { IfOk result (λ all. (xs : List T.Rows.Item) → IsPermutation (items.items ++ more.items) xs
        → Rises T.Key.cmp T.key_of xs → all.items ≡ xs) }
{
    items.append(&mut more)?;
    Ok(sort_by_keys::<T>(items))
}

// The items of both tables as one list, sorted by their keys. Returns `BadRow` if a row stands for no item, `Memory` if
// memory runs out, and `Fault` if the disk fails or the tables are others.
fn load_both_tables<S: Alter, T: InTwoTables>(
    alloc: Global,
    conn: &mut Connection<S>,
) -> Result<Vec<T>, ReadError>
    ensures found { HasCleanDisk (state S.Store conn.new) → (r : ARelease) → T.Firsts.knows r → T.Furthers.knows r
        → (contents : Contents) → HasContents (schema_under r) contents (state S.Store conn.old).now
        → IfOk result (λ rows. (firsts : List T) × (furthers : List T) × AreOfBoth T.Firsts.row_of T.Furthers.row_of
        T.Firsts.has_form T.Furthers.has_form (contents T.Firsts.table.tree) (contents T.Furthers.table.tree) firsts
        furthers rows.items) }
    ensures forms { IfOk result (λ rows. AllByRecursion (λ x. T.Firsts.has_form x ⊎ T.Furthers.has_form x) rows.items) }
    ensures only { HasCleanDisk (state S.Store conn.new) → (r : ARelease) → T.Firsts.knows r → T.Furthers.knows r
        → (contents : Contents) → HasContents (schema_under r) contents (state S.Store conn.old).now
        → IfOk result (λ rows. (firsts furthers xs : List T) → AreOfBoth T.Firsts.row_of T.Furthers.row_of
        T.Firsts.has_form T.Furthers.has_form (contents T.Firsts.table.tree) (contents T.Furthers.table.tree) firsts
        furthers xs → Rises T.Firsts.Key.cmp T.Firsts.key_of xs → rows.items ≡ xs) }
    ensures none { HasCleanDisk (state S.Store conn.new) → IsErrOf result ReadError.BadRow → (r : ARelease)
        → T.Firsts.knows r → T.Furthers.knows r → (contents : Contents)
        → HasContents (schema_under r) contents (state S.Store conn.old).now → (firsts furthers xs : List T)
        → ¬ AreOfBoth T.Firsts.row_of T.Furthers.row_of T.Firsts.has_form T.Furthers.has_form
        (contents T.Firsts.table.tree) (contents T.Furthers.table.tree) firsts furthers xs }
    ensures reads { (r : ARelease) → T.Firsts.knows r → T.Furthers.knows r
        → OnlyReads S.Store (schema_under r) ReadError.BadRow ReadError.Fault conn.old conn.new result }
{
    let firsts = load_query::<S, T::Firsts>(alloc, conn, &[])?;
    let furthers = load_query::<S, T::Furthers>(alloc, conn, &[])?;
    let rows = append_and_sort::<T::Firsts>(firsts, furthers)?;
    Ok(rows)
}

/// The items of the first table and, under schema 3, of the second, sorted by their keys. Under an earlier schema each
/// `++VER` is the first for its SREL. Returns `BadRow` if a row stands for no item, `Memory` if memory runs out, and
/// `Fault` if the disk fails or the tables are others.
pub(crate) fn load_firsts_and_furthers<S: Alter, T: InTwoTables>(
    alloc: Global,
    conn: &mut Connection<S>,
    schema: Schema,
) -> Result<Vec<T>, ReadError>
    ensures rows { LoadsRows S.Store schema (λ rows. rows.items) (λ xs contents. AreRowsIn schema T.Firsts.row_of
        T.Furthers.row_of T.Firsts.has_form T.Furthers.has_form (contents T.Firsts.table.tree)
        (contents T.Furthers.table.tree) xs) (Rises T.Firsts.Key.cmp T.Firsts.key_of) conn.old conn.new result }
    ensures forms { IfOk result (λ rows. AllByRecursion (λ x. T.Firsts.has_form x ⊎ T.Furthers.has_form x) rows.items) }
{
    match schema {
        Schema::First | Schema::Second => load_sorted::<S, T::Firsts>(alloc, conn),
        Schema::Third => load_both_tables::<S, T>(alloc, conn),
    }
}
