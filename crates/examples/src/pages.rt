// Worked examples of text, page files and their outlines.
ghost use Rattle.std.specs.Prelude.{◌≡◌};
ghost use Rattle.pagefile.specs.Format.{encode};
ghost use Rattle.pagefile.specs.Opened.{document_alone};
ghost use Rattle.examples.specs.Pages.{Texts, Pages, Refused};

// The file of the document alone.
pub fn document_file() -> [u8; 28]
    ensures file { result ≡ encode document_alone }
    ensures texts { Texts }
    ensures pages { Pages }
    ensures refused { Refused }
{
    *b"\x01\0\0\0\0\0\0\0\0\0\0\0\0\0\0\0\0\0\0\0\0\0\0\0\0\0\0\0"
}
