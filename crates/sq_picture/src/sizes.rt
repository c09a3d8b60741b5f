// The size of a move, in each format.
ghost use Rattle.sq_picture.specs.Asked.{IsAnyText};

use crate::asked::OpeningTelling;
use crate::size_json::sizes_json;
use crate::size_lines::write_lines;
use crate::size_svg::write_picture;
use sq_moves::Opening;
use sq_world::Told;
use std::alloc::Global;
use std::io;
use std::io::Write;

/// The format for the size of a move.
#[derive(Clone, Copy, Debug, PartialEq, Eq)]
pub enum SizesAs {
    /// A line for each reconfiguration range, in key order, one for each segment, one for each
    /// stage, and the line of the sizes that are proposed.
    Lines,
    /// One line with a JSON object, that of what moves with sizes added: `ranges`, `segments`, for
    /// each stage `stage_sizes`, and the sizes that are proposed, `config`.
    Json,
    /// The SVG picture of what moves, with sizes added.
    Svg,
}

impl SizesAs {
    // The text in this format. Fails only if memory runs out.
    fn text(self, alloc: Global, opening: &Opening) -> io::Result<Vec<u8>> {
        let mut text = Vec::new(alloc);
        match self {
            SizesAs::Lines => write_lines(&mut text, opening)?,
            SizesAs::Json => {
                let json = sizes_json(alloc, opening)?;
                writeln!(&mut text, "{json}")?;
            }
            SizesAs::Svg => write_picture(&mut text, opening)?,
        }
        Ok(text)
    }
}

impl OpeningTelling for SizesAs {
    ghost tells = { λ _. IsAnyText };

    fn tell<W: Write>(&self, alloc: Global, writer: &mut W, opening: &Opening) -> io::Result<Told> {
        let Ok(text) = self.text(alloc, opening) else {
            return Ok(Told::NoMemory);
        };
        writer.write_all(&text)?;
        Ok(Told::Written)
    }
}
