// The parts of pictures.
use std::io;
use std::io::Write;

// The style of each class, in light and in dark, and the background.
const STYLE: &str = "\
<style>
svg { color: #1f2328; font: 12px sans-serif }
.ground { fill: #ffffff }
.free rect, .split rect, .rest rect { fill: none; stroke: currentColor }
.split rect { stroke-dasharray: 4 3 }
.rest { opacity: .35 }
.claimed rect { fill: #fff1b8; stroke: currentColor }
.partial rect { fill: #cfe5ff; stroke: currentColor }
.complete rect { fill: #c6efce; stroke: currentColor }
@media (prefers-color-scheme: dark) {
svg { color: #e6edf3 }
.ground { fill: #0d1117 }
.claimed rect { fill: #5c4a00 }
.partial rect { fill: #0b3d6e }
.complete rect { fill: #14532d }
}
text { fill: currentColor }
.end { text-anchor: end }
.middle { text-anchor: middle }
.owner { text-anchor: middle; fill: #ffffff; font-weight: bold }
.line { fill: none; stroke: currentColor }
.arrow { fill: currentColor; stroke: currentColor; stroke-width: 2 }
.even { fill: currentColor; opacity: .6 }
.odd { fill: currentColor; opacity: .25 }
</style>
<rect class=\"ground\" width=\"100%\" height=\"100%\"/>
";

/// Writes the start of a picture, up to its first shape: its size, its title, and the style of each
/// class.
pub(crate) fn write_start<W: Write>(
    writer: &mut W,
    width: usize,
    height: u128,
    title: &str,
) -> io::Result<()> {
    write!(
        writer,
        "<svg xmlns=\"http://www.w3.org/2000/svg\" viewBox=\"0 0 {width} {height}\" width=\"{width}\" height=\"{height}\" \
         role=\"img\">\n<title>{title}</title>\n"
    )?;
    writer.write_all(STYLE.as_bytes())
}

/// Writes `words` at a place, laid out by their class.
pub(crate) fn write_words<W: Write>(
    writer: &mut W,
    class: &str,
    x: u64,
    y: u64,
    words: &str,
) -> io::Result<()> {
    writeln!(
        writer,
        "<text class=\"{class}\" x=\"{x}\" y=\"{y}\">{words}</text>"
    )
}

/// Writes `number` at a place, after `words`.
pub(crate) fn write_number<W: Write>(
    writer: &mut W,
    class: &str,
    x: u64,
    y: u64,
    words: &str,
    number: u64,
) -> io::Result<()> {
    writeln!(
        writer,
        "<text class=\"{class}\" x=\"{x}\" y=\"{y}\">{words}{number}</text>"
    )
}

/// Writes the end of a picture. Fails if a write fails.
pub fn write_end<W: Write>(writer: &mut W) -> io::Result<()> {
    writer.write_all(b"</svg>\n")
}
