//! The forms of `import` and `export`, and which words they are.

ghost use Rattle.std.specs.Prelude.{◌≡◌, ◌<◌, length, IfSome};
ghost use Rattle.da_words.specs.Words.{words_of};
ghost use Rattle.da_words.specs.Forms.{import_files, sample_form, row_data_form, namespace_data_form, befp_form, row_form, sample_id_form, namespace_id_form, befp_to, sample_id_to, namespace_id_to, import_form, export_form};

use crate::values::{height_in, key_in, name_in, place_in, square_width_in};
use namespace_id::{Cell, Namespace};

/// What `import` takes the bytes of FILE for, with what they don't say themselves.
#[derive(Clone, Copy)]
pub enum ImportForm {
    /// `dah FILE`: a DataAvailabilityHeader; the frame is H.
    Dah,
    /// `header FILE`: an ExtendedHeader, whose data hash is the data root of its axis roots; H of these.
    Header,
    /// `sample FILE ROW COL`: a Sample of this cell; M.
    Sample(Cell),
    /// `row-data FILE ROW NAMESPACE`: a RowNamespaceData of this row; N of this namespace with the one entry of the row.
    RowData(u16, Namespace),
    /// `befp FILE HASH HEIGHT`: a BadEncoding of a header with this hash and this height; B without a set.
    Befp([u8; 32], u64),
    /// `namespace-data FILE HEADER NAMESPACE`: messages RowNamespaceData, each behind its length, for the rows of HEADER that may
    /// hold this namespace; N.
    NamespaceData(Namespace),
    /// `row FILE ROW`: a Row, half of the row of this number; M of each of its cells, from column 0.
    Row(u16),
    /// `ods FILE`: the k * k shares of an original square, row by row; S.
    Ods,
    /// `share-proof FILE`: a ShareProof of one share; R along the row.
    ShareProof,
    /// `sample-id FILE HEIGHT`: a SampleID of this height; Q along the row.
    SampleId(u64),
    /// `namespace-id FILE HEIGHT`: a NamespaceDataID of this height; P.
    NamespaceId(u64),
}

/// What `export` makes of the frame in FILE, with what the frame doesn't say.
#[derive(Clone, Copy)]
pub enum ExportForm {
    /// `dah FILE`: of H a DataAvailabilityHeader.
    Dah,
    /// `sample FILE`: of M a Sample.
    Sample,
    /// `row-data FILE`: of N with one entry, that has a message, a RowNamespaceData, whatever the row and the namespace.
    RowData,
    /// `befp FILE WIDTH HASH HEIGHT`: of B without a set, against an axis of a square of this width, a BadEncoding of a header with
    /// this hash and this height.
    Befp(u16, [u8; 32], u64),
    /// `namespace-data FILE`: of N a message RowNamespaceData for each of its entries, each behind its length.
    NamespaceData,
    /// `row FILE`: of M of each cell of a row, from column 0, a Row, the left half.
    Row,
    /// `ods FILE`: of S the k * k shares, row by row.
    Ods,
    /// `share-proof FILE`: of R a ShareProof of one share. An R along a column has none, nor has one whose k is no width or whose
    /// cell is outside its square.
    ShareProof,
    /// `sample-id FILE HEIGHT`: of Q a SampleID of this height, whatever the axis.
    SampleId(u64),
    /// `namespace-id FILE HEIGHT`: of P a NamespaceDataID of this height.
    NamespaceId(u64),
}

/// How many files a form of `import` has: FILE, and HEADER.
pub(crate) fn import_files(form: ImportForm) -> usize
    ensures { result ≡ import_files form }
{
    match form {
        ImportForm::NamespaceData(_) => 2,
        _ => 1,
    }
}

/// The form `sample FILE ROW COL` of `import` whose ROW and COL are these words.
fn sample_form(row: &str, col: &str) -> Option<ImportForm>
    ensures value { result ≡ sample_form row.now col.now }
    ensures files { IfSome result (λ form. import_files form ≡ 1) }
{
    let row = place_in(row)?;
    let col = place_in(col)?;
    Some(ImportForm::Sample(Cell { row, col }))
}

/// The form `row-data FILE ROW NAMESPACE` of `import` whose ROW and NAMESPACE are these words.
fn row_data_form(row: &str, name: &str) -> Option<ImportForm>
    ensures value { result ≡ row_data_form row.now name.now }
    ensures files { IfSome result (λ form. import_files form ≡ 1) }
{
    let row = place_in(row)?;
    let name = name_in(name)?;
    Some(ImportForm::RowData(row, name))
}

/// The form `namespace-data FILE HEADER NAMESPACE` of `import` whose NAMESPACE is this word.
fn namespace_data_form(name: &str) -> Option<ImportForm>
    ensures value { result ≡ namespace_data_form name.now }
    ensures files { IfSome result (λ form. import_files form ≡ 2) }
{
    let name = name_in(name)?;
    Some(ImportForm::NamespaceData(name))
}

/// The form `befp FILE HASH HEIGHT` of `import` whose HASH and HEIGHT are these words.
fn befp_form(hash: &str, height: &str) -> Option<ImportForm>
    ensures value { result ≡ befp_form hash.now height.now }
    ensures files { IfSome result (λ form. import_files form ≡ 1) }
{
    let hash = key_in(hash)?;
    let height = height_in(height)?;
    Some(ImportForm::Befp(hash, height))
}

/// The form `row FILE ROW` of `import` whose ROW is this word.
fn row_form(row: &str) -> Option<ImportForm>
    ensures value { result ≡ row_form row.now }
    ensures files { IfSome result (λ form. import_files form ≡ 1) }
{
    let row = place_in(row)?;
    Some(ImportForm::Row(row))
}

/// The form `sample-id FILE HEIGHT` of `import` whose HEIGHT is this word.
fn sample_id_form(height: &str) -> Option<ImportForm>
    ensures value { result ≡ sample_id_form height.now }
    ensures files { IfSome result (λ form. import_files form ≡ 1) }
{
    let height = height_in(height)?;
    Some(ImportForm::SampleId(height))
}

/// The form `namespace-id FILE HEIGHT` of `import` whose HEIGHT is this word.
fn namespace_id_form(height: &str) -> Option<ImportForm>
    ensures value { result ≡ namespace_id_form height.now }
    ensures files { IfSome result (λ form. import_files form ≡ 1) }
{
    let height = height_in(height)?;
    Some(ImportForm::NamespaceId(height))
}

/// The form that the words behind `import` are.
pub(crate) fn import_form(words: &[String]) -> Option<ImportForm>
    ensures value { result ≡ import_form (words_of words.now) }
    ensures files { IfSome result (λ form. import_files form < length words.now) }
{
    let (form, rest) = words.split_first()?;
    match (form.as_str(), rest) {
        ("dah", [_]) => Some(ImportForm::Dah),
        ("header", [_]) => Some(ImportForm::Header),
        ("sample", [_, row, col]) => sample_form(row, col),
        ("row-data", [_, row, name]) => row_data_form(row, name),
        ("namespace-data", [_, _, name]) => namespace_data_form(name),
        ("befp", [_, hash, height]) => befp_form(hash, height),
        ("ods", [_]) => Some(ImportForm::Ods),
        ("row", [_, row]) => row_form(row),
        ("share-proof", [_]) => Some(ImportForm::ShareProof),
        ("sample-id", [_, height]) => sample_id_form(height),
        ("namespace-id", [_, height]) => namespace_id_form(height),
        _ => None,
    }
}

/// The form `befp FILE WIDTH HASH HEIGHT` of `export` whose WIDTH, HASH and HEIGHT are these words.
fn befp_to(width: &str, hash: &str, height: &str) -> Option<ExportForm>
    ensures { result ≡ befp_to width.now hash.now height.now }
{
    let width = square_width_in(width)?;
    let hash = key_in(hash)?;
    let height = height_in(height)?;
    Some(ExportForm::Befp(width, hash, height))
}

/// The form `sample-id FILE HEIGHT` of `export` whose HEIGHT is this word.
fn sample_id_to(height: &str) -> Option<ExportForm>
    ensures { result ≡ sample_id_to height.now }
{
    let height = height_in(height)?;
    Some(ExportForm::SampleId(height))
}

/// The form `namespace-id FILE HEIGHT` of `export` whose HEIGHT is this word.
fn namespace_id_to(height: &str) -> Option<ExportForm>
    ensures { result ≡ namespace_id_to height.now }
{
    let height = height_in(height)?;
    Some(ExportForm::NamespaceId(height))
}

/// The form that the words behind `export` are.
pub(crate) fn export_form(words: &[String]) -> Option<ExportForm>
    ensures value { result ≡ export_form (words_of words.now) }
    ensures files { IfSome result (λ form. 1 < length words.now) }
{
    let (form, rest) = words.split_first()?;
    match (form.as_str(), rest) {
        ("dah", [_]) => Some(ExportForm::Dah),
        ("sample", [_]) => Some(ExportForm::Sample),
        ("row-data", [_]) => Some(ExportForm::RowData),
        ("namespace-data", [_]) => Some(ExportForm::NamespaceData),
        ("befp", [_, width, hash, height]) => befp_to(width, hash, height),
        ("ods", [_]) => Some(ExportForm::Ods),
        ("row", [_]) => Some(ExportForm::Row),
        ("share-proof", [_]) => Some(ExportForm::ShareProof),
        ("sample-id", [_, height]) => sample_id_to(height),
        ("namespace-id", [_, height]) => namespace_id_to(height),
        _ => None,
    }
}
