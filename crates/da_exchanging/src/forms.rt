//! Importing and exporting a form of Celestia's bytes.

ghost use Rattle.std.specs.Prelude.{◌≡◌};
ghost use Rattle.da_status.specs.Judging.{Judged};
ghost use Rattle.da_status.specs.Outcome.{EndsAtOnce};
ghost use Rattle.da_files.specs.Contents.{contents_of};
ghost use Rattle.da_exchanging.specs.Made.{IsMadeOutput};
ghost use Rattle.da_exchanging.specs.Forms.{import_judged, ImportOf, export_judged, ExportOf};

use crate::{befp, dah, header, ids, namespace_data, ods, row, row_data, sample, share_proof};
use da_files::put;
use da_io::Sink;
use da_status::Status;
use da_words::{ExportForm, ImportForm};
use std::alloc::Global;

/// The output of `import`.
fn imported(alloc: Global, form: ImportForm, files: &[Vec<u8>]) -> Result<Vec<u8>, Status>
    ensures { IsMadeOutput (Judged (import_judged form (contents_of files.now))
        (ImportOf form (contents_of files.now))) result }
{
    match form {
        ImportForm::Dah => dah::import(alloc, files),
        ImportForm::Header => header::import(alloc, files),
        ImportForm::Sample(cell) => sample::import(alloc, files, cell),
        ImportForm::RowData(row, name) => row_data::import(alloc, files, row, name),
        ImportForm::Befp(hash, height) => befp::import(alloc, files, &hash, height),
        ImportForm::NamespaceData(name) => namespace_data::import(alloc, files, name),
        ImportForm::Row(row) => row::import(alloc, files, row),
        ImportForm::Ods => ods::import(alloc, files),
        ImportForm::ShareProof => share_proof::import(alloc, files),
        ImportForm::SampleId(height) => ids::import_sample(alloc, files, height),
        ImportForm::NamespaceId(height) => ids::import_namespace(alloc, files, height),
    }
}

/// The output of `export`.
fn exported(alloc: Global, form: ExportForm, files: &[Vec<u8>]) -> Result<Vec<u8>, Status>
    ensures { IsMadeOutput (Judged (export_judged form (contents_of files.now))
        (ExportOf form (contents_of files.now))) result }
{
    match form {
        ExportForm::Dah => dah::export(alloc, files),
        ExportForm::Sample => sample::export(alloc, files),
        ExportForm::RowData => row_data::export(alloc, files),
        ExportForm::Befp(k, hash, height) => befp::export(alloc, files, k, &hash, height),
        ExportForm::NamespaceData => namespace_data::export(alloc, files),
        ExportForm::Row => row::export(alloc, files),
        ExportForm::Ods => ods::export(alloc, files),
        ExportForm::ShareProof => share_proof::export(alloc, files),
        ExportForm::SampleId(height) => ids::export_sample(alloc, files, height),
        ExportForm::NamespaceId(height) => ids::export_namespace(alloc, files, height),
    }
}

/// Writes the frame of what the bytes in FILE are, taken for this form. Bytes that aren't in the one spelling of the form are
/// refused at the first field that is wrong. All memory is taken before the write.
///
/// docs/RULES.md, "Celestia's messages".
pub fn import<O: Sink>(alloc: Global, form: ImportForm, files: &[Vec<u8>], out: &mut O) -> Status
    ensures { EndsAtOnce (Judged (import_judged form (contents_of files.now))
        (ImportOf form (contents_of files.now))) (O.taken out.old) (O.taken out.new)
        (O.faults out.old) (O.faults out.new) (out.new ≡ out.old) result }
{
    match imported(alloc, form, files) {
        Ok(text) => put(&text, Status::Done, out),
        Err(status) => status,
    }
}

/// Writes Celestia's bytes of the frame in FILE, in this form. A file that isn't one frame of the form's kind is refused
/// where it stops being one; then a frame that has no bytes in this form, by `Asked::Form`. All memory is taken before the write.
///
/// docs/RULES.md, "Celestia's messages".
pub fn export<O: Sink>(alloc: Global, form: ExportForm, files: &[Vec<u8>], out: &mut O) -> Status
    ensures { EndsAtOnce (Judged (export_judged form (contents_of files.now))
        (ExportOf form (contents_of files.now))) (O.taken out.old) (O.taken out.new)
        (O.faults out.old) (O.faults out.new) (out.new ≡ out.old) result }
{
    match exported(alloc, form, files) {
        Ok(text) => put(&text, Status::Done, out),
        Err(status) => status,
    }
}
