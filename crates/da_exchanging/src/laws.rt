//! What import and export say of each other.

ghost use Rattle.std.specs.Prelude.{◌<◌, ◌^◌, ℕ};
ghost use Rattle.namespace_id.specs.declared.cells.Cell.{Cell};
ghost use Rattle.namespace_id.specs.declared.namespaces.Namespace.{Namespace};
ghost use Rattle.namespace_id.specs.Names.{IsNamespace};
ghost use Rattle.namespace_id.specs.Cells.{IsCell};
ghost use Rattle.da_words.specs.declared.forms.ImportForm.TheVariants as from;
ghost use Rattle.da_words.specs.declared.forms.ExportForm.TheVariants as to;
ghost use Rattle.da_exchanging.specs.Laws.{IsExportedBack, IsImportedBack, SampleIsImportedBack, RowDataIsImportedBack, BefpIsExportedBack, BefpIsImportedBack, SampleIdIsImportedBack, NamespaceDataIsExportedBack, NamespaceDataIsImportedBack, HeaderIsOfDah, RowIsOfSquare};

use celestia_pb::{
    befp_laws, dah_laws, extended_laws, half_row_laws, id_laws, namespace_data_laws, ods_laws,
    row_data_laws, sample_laws, share_proof_laws,
};
use da_wire::wire_laws;
use half_rows::row_laws;

/// What is imported is exported as the bytes that it came from, and what is exported is imported as the frame that it came
/// from: under its cell a sample, under its row and its namespace what is found in a row, under a header what is found of a
/// namespace in just the rows of the header that may hold it, under its hash and its height a claim whose proofs pass over the
/// parity namespace, and under its height an identifier, but that the request is along the row. An extended header is imported
/// as the message of its axis roots, and half a row of a square as the square's samples along the row. It changes nothing.
pub fn exchange_laws()
    ensures dah { IsExportedBack from.Dah to.Dah }
    ensures dah_back { IsImportedBack from.Dah to.Dah }

    ensures sample { (cell : Cell) → IsCell cell → IsExportedBack (from.Sample cell) to.Sample }
    ensures sample_back { SampleIsImportedBack }

    ensures row_data { (row : ℕ) (name : Namespace) → row < 2 ^ 16 → IsNamespace name →
        IsExportedBack (from.RowData row name) to.RowData }
    ensures row_data_back { RowDataIsImportedBack }

    ensures namespace_data { NamespaceDataIsExportedBack }
    ensures namespace_data_back { NamespaceDataIsImportedBack }

    ensures befp { BefpIsExportedBack }
    ensures befp_back { BefpIsImportedBack }

    ensures ods { IsExportedBack from.Ods to.Ods }
    ensures ods_back { IsImportedBack from.Ods to.Ods }

    ensures share_proof { IsExportedBack from.ShareProof to.ShareProof }
    ensures share_proof_back { IsImportedBack from.ShareProof to.ShareProof }

    ensures sample_id { (height : ℕ) → IsExportedBack (from.SampleId height) (to.SampleId height) }
    ensures sample_id_back { SampleIdIsImportedBack }
    ensures namespace_id { (height : ℕ) → IsExportedBack (from.NamespaceId height) (to.NamespaceId height) }
    ensures namespace_id_back { (height : ℕ) → IsImportedBack (from.NamespaceId height) (to.NamespaceId height) }

    ensures header { HeaderIsOfDah }
    ensures row { RowIsOfSquare }
{
    wire_laws();
    dah_laws();
    sample_laws();
    row_data_laws();
    namespace_data_laws();
    befp_laws();
    ods_laws();
    share_proof_laws();
    id_laws();
    extended_laws();
    half_row_laws();
    row_laws();
}
