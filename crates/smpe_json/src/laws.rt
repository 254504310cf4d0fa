//! What the definitions say about documents.
ghost use Rattle.smpe_json.specs.Laws.{DocumentTells};

/// A document tells one command, with just its header and its lines.
pub fn document_tells()
    ensures { DocumentTells }
{}
