//! All open documents.
//!
//! Contracts see them by `document_at`: the bytes of a URI lead to the document that is open under it, if there is one.
ghost use Rattle.std.specs.Prelude.{◌≡◌, List, ℕ, None, Some, is_some, option_copied, string_bytes, if◌then◌else◌, OnErr, OnOk};
ghost use Rattle.std.specs.Map.{update};
ghost use Rattle.std.specs.Str.{bytes_eq};
ghost use Rattle.pg_server_documents.specs.Documents.{document_at, told};

use crate::document::Document;
use indexmap::IndexMap;
use std::alloc::{AllocError, Global};

/// The open documents, by their URIs as the client writes them, in the order in which they were opened.
#[derive(Drop)]
pub struct Documents {
    by_uri: IndexMap<String, Document>,
}

impl Documents {
    /// No document. It takes no memory.
    pub fn new(alloc: Global) -> Documents
        ensures { (uri : List ℕ) → document_at result uri ≡ None }
    {
        Documents {
            by_uri: IndexMap::new(alloc),
        }
    }

    /// Opens a document under a URI, in the place of one that is open there. Fails where memory runs out; then all is as it was.
    #[tactic(auto, using(std::proofs::lemmas::Map::Text::text_keys))]
    pub fn put(&mut self, uri: String, document: Document) -> Result<(), AllocError>
        ensures ok { OnOk result ((other : List ℕ) → document_at self.new other ≡ update bytes_eq (document_at self.old) (string_bytes uri) (Some document) other) }
        ensures err { OnErr result ((other : List ℕ) → document_at self.new other ≡ document_at self.old other) }
    {
        match self.by_uri.insert(uri, document) {
            Ok(_old) => Ok(()),
            Err(_refused) => Err(AllocError),
        }
    }

    /// The document that is open under a URI.
    pub fn get(&self, uri: &str) -> Option<&Document>
        ensures { option_copied result ≡ document_at self.now uri.now }
    {
        self.by_uri.get(uri)
    }

    /// Puts a document in the place of the one that is open under a URI. Answers whether there was one; if not, the new one is dropped.
    #[tactic(auto, using(std::proofs::lemmas::Map::Text::text_keys))]
    pub fn change(&mut self, uri: &str, document: Document) -> bool
        ensures was { result ≡ is_some (document_at self.old uri.now) }
        ensures after { (other : List ℕ) → document_at self.new other ≡ (if result then update bytes_eq (document_at self.old) uri.now (Some document) other else document_at self.old other) }
    {
        match self.by_uri.get_mut(uri) {
            Some(open) => {
                *open = document;
                true
            }
            None => false,
        }
    }

    /// Closes the document that is open under a URI. Answers whether there was one.
    #[tactic(auto, using(std::proofs::lemmas::Map::Text::text_keys))]
    pub fn close(&mut self, uri: &str) -> bool
        ensures was { result ≡ is_some (document_at self.old uri.now) }
        ensures after { (other : List ℕ) → document_at self.new other ≡ update bytes_eq (document_at self.old) uri.now None other }
    {
        self.by_uri.shift_remove(uri).is_some()
    }

    /// The first document of which the client wasn't told what is wrong with it, and its URI.
    pub fn first_untold(&self) -> Option<(&str, &Document)> {
        for (uri, document) in self.by_uri.iter() {
            if !document.is_told {
                return Some((uri.as_str(), document));
            }
        }
        None
    }

    /// Notes that the client was told what is wrong with the document that is open under a URI.
    #[tactic(auto, using(std::proofs::lemmas::Map::Text::text_keys))]
    pub fn note_told(&mut self, uri: &str)
        ensures { (other : List ℕ) → document_at self.new other ≡ update bytes_eq (document_at self.old) uri.now (told (document_at self.old uri.now)) other }
    {
        if let Some(open) = self.by_uri.get_mut(uri) {
            open.is_told = true;
        }
    }
}
