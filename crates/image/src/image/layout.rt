// The layout of a whole image.
ghost use Rattle.base.specs.Outcomes.{read_as};
ghost use Rattle.image.specs.Format.{AcceptsExactly, RecordEnds};
ghost use Rattle.image.specs.Layout.{layout as «layout_of»};
ghost use Rattle.image.specs.View.{declares, outline, source};
ghost use Rattle.std.specs.Prelude.{◌≡◌, IfOk};

use super::Image;
use crate::cursor::Cursor;
use base::Refusal;

// Reads the layout of an image: what it declares, or the first broken rule and its word.
pub fn read(words: &[u32]) -> Result<Image<'_>, Refusal>
    ensures value { read_as declares result ≡ read_as outline («layout_of» words.now) }
    ensures from { IfOk result (λ im. source im ≡ words.now) }
    ensures exactly { AcceptsExactly words.now }
    ensures ends { RecordEnds words.now }
{
    Image::read_whole(words)
}

impl<'a> Image<'a> {
    // Each word is judged as it is read, so the first broken rule is the one refused. It stands apart
    // from `read`, whose other clauses speak of the words alone and are proved at one return.
    fn read_whole(words: &'a [u32]) -> Result<Image<'a>, Refusal>
        ensures value { read_as declares result ≡ read_as outline («layout_of» words.now) }
        ensures from { IfOk result (λ im. source im ≡ words.now) }
    {
        let mut cursor = Cursor::open(words)?;
        let types = cursor.types()?;
        let blocks = cursor.blocks()?;
        let tables = cursor.tables()?;
        cursor.end()?;
        Ok(Image {
            words,
            types,
            blocks,
            tables,
            names: cursor.counts().names,
        })
    }
}
