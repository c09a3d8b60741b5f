// Ways to write what moves: as JSON, and as a picture.
ghost use Rattle.sq_picture.specs.Json.{TellsAsJson};
ghost use Rattle.sq_picture.specs.Pictures.{IsPicture};

use crate::json_text::moves_json;
use crate::moves_svg::write_moves_svg;
use sq_moves::Recon;
use sq_world::{Telling, Told};
use std::alloc::Global;
use std::io;
use std::io::Write;

/// Writes what moves as one line of JSON, an object with the members `ranges`, the reconfiguration
/// ranges in key order, each with `dst`, `hi`, `lo` and `src`; `segments`, in the order of their
/// numbers, each with these and `stage`; and `stages`, the number of stages.
pub struct AsJson;

/// Writes what moves as an SVG picture, as [`write_moves_svg`] draws it.
pub struct AsSvg;

impl Telling for AsJson {
    ghost tells = { λ _. TellsAsJson };

    fn tell<W: Write>(&self, alloc: Global, writer: &mut W, recon: &Recon) -> io::Result<Told> {
        match moves_json(alloc, recon) {
            Ok(text) => {
                writeln!(writer, "{text}")?;
                Ok(Told::Written)
            }
            Err(_) => Ok(Told::NoMemory),
        }
    }
}

impl Telling for AsSvg {
    ghost tells = { λ _. IsPicture };

    fn tell<W: Write>(&self, alloc: Global, writer: &mut W, recon: &Recon) -> io::Result<Told> {
        let mut picture = Vec::new(alloc);
        if write_moves_svg(&mut picture, recon).is_err() {
            return Ok(Told::NoMemory);
        }
        writer.write_all(&picture)?;
        Ok(Told::Written)
    }
}
