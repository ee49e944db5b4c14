// Columns and their combination as strips, one above the other, as SVG. A position has the same x in every strip. A run narrower than a
// unit is left out; where columns break at several positions on one x, the line there says so, and a drawing of fewer positions shows
// them apart.
use crate::colours::{Colours, FREE, LIST};
use crate::seams::{Seam, Seams, UNITS, Window};
use column::sequence;
use job::inner::Job;
use std::io;
use std::io::Write;

// Where the first strip starts, and how far it is to the next one.
const TOP: i64 = 92;

const PITCH: i64 = 46;

// How wide a number is in print, about.
fn print_width(number: i64) -> i64 {
    let mut digits = itoa::Buffer::new();
    let n = digits.format(number.unsigned_abs()).len();
    (n as u64).cast_signed().wrapping_mul(8).wrapping_add(4)
}

// The y of the strip of a column.
fn strip_y(column: usize) -> i64 {
    (column as u64)
        .cast_signed()
        .wrapping_mul(PITCH)
        .wrapping_add(TOP)
}

// The y of the strip of the combination, a little below those of the columns.
fn result_y(columns: usize) -> i64 {
    strip_y(columns).wrapping_add(14)
}

// What the strips are drawn from.
#[derive(Clone, Copy)]
struct Scene<'a> {
    window: Window,
    seams: &'a Seams,
    colours: &'a Colours<'a>,
}

// The value of a run, if the run is wide enough for it.
fn draw_value<W: Write>(out: &mut W, x: i64, width: i64, value: i64) -> io::Result<()> {
    if width < print_width(value) {
        return Ok(());
    }
    let middle = x.wrapping_add(width / 2);
    writeln!(
        out,
        "<text x=\"{middle}\" y=\"21\" class=\"value\">{value}</text>"
    )
}

// Where a run starts after another one, with a dot if other columns break there too.
fn draw_break<W: Write>(out: &mut W, x: i64, seam: Seam) -> io::Result<()> {
    write!(out, "<path d=\"M{x} -2v36\" class=\"break\"/>")?;
    if seam.is_of_several() {
        write!(out, "<circle cx=\"{x}\" cy=\"16\" r=\"5\" class=\"dot\"/>")?;
    }
    writeln!(out)
}

// What of a run is drawn: where it starts and ends, and its value; it shows that, or it is filled with it.
#[derive(Clone, Copy)]
struct Run {
    start: i64,
    end: i64,
    value: i64,
    filled: bool,
}

impl Run {
    fn class(self) -> &'static str {
        if self.filled { "fill " } else { "" }
    }

    fn verb(self) -> &'static str {
        if self.filled {
            "is filled with"
        } else {
            "shows"
        }
    }
}

impl<'a> Scene<'a> {
    fn draw_run<W: Write>(&self, out: &mut W, name: &str, run: Run) -> io::Result<()> {
        let x = self.window.x_of(run.start);
        let width = self.window.x_of(run.end).wrapping_sub(x);
        if width == 0 {
            return Ok(());
        }
        let class = run.class();
        let colour = self.colours.colour_of(run.value);
        let verb = run.verb();
        writeln!(
            out,
            "<rect x=\"{x}\" width=\"{width}\" height=\"32\" class=\"{class}c{colour}\"><title>{name}: {} up to {} {verb} {}</title></rect>",
            run.start, run.end, run.value
        )?;
        draw_value(out, x, width, run.value)?;
        if run.start <= self.window.from {
            return Ok(());
        }
        draw_break(out, x, self.seams.at(x))
    }

    // A strip: its name, its runs and the fill after them. Each strip is a group, and ends the group before it.
    fn draw_strip<W: Write>(
        &self,
        out: &mut W,
        y: i64,
        name: &str,
        ends: &[i64],
        values: &[i64],
        fill: i64,
    ) -> io::Result<()> {
        writeln!(out, "</g>")?;
        writeln!(out, "<g transform=\"translate(0,{y})\">")?;
        writeln!(out, "<text x=\"-12\" y=\"21\" class=\"name\">{name}</text>")?;
        let mut start = 0;
        for (end, value) in ends.iter().zip(values) {
            let run = Run {
                start,
                end: *end,
                value: *value,
                filled: false,
            };
            self.draw_run(out, name, run)?;
            start = *end;
        }
        let rest = Run {
            start,
            end: self.window.to,
            value: fill,
            filled: true,
        };
        self.draw_run(out, name, rest)
    }

    fn draw_columns<W: Write>(&self, out: &mut W, job: Job) -> io::Result<()> {
        let fill = job.fill.unwrap_or(0);
        for c in 0..job.columns() {
            let name = job.name_of(c);
            self.draw_strip(
                out,
                strip_y(c),
                name,
                job.ends_of(c),
                job.values_of(c),
                fill,
            )?;
        }
        Ok(())
    }
}

// From which x on there is room to print above the strips, and below them.
#[derive(Clone, Copy)]
struct Room {
    above: i64,
    below: i64,
}

// How wide the print of a seam is.
fn seam_width(seam: Seam) -> i64 {
    let width = print_width(seam.last);
    if seam.is_single() {
        return width;
    }
    if seam.is_near() {
        return width.wrapping_mul(2).wrapping_add(32);
    }
    width.max(72)
}

// Where the print of a seam starts.
fn print_start(x: i64, seam: Seam) -> i64 {
    x.wrapping_sub(seam_width(seam) / 2)
}

// The room after a print from `start` on.
fn room_behind(room: i64, start: i64, x: i64) -> i64 {
    if start < room {
        return room;
    }
    x.wrapping_add(x.wrapping_sub(start))
}

impl Room {
    fn after(self, x: i64, seam: Seam) -> Room {
        if seam.count == 0 {
            return self;
        }
        let start = print_start(x, seam);
        if seam.is_single() {
            return Room {
                above: self.above,
                below: room_behind(self.below, start, x),
            };
        }
        Room {
            above: room_behind(self.above, start, x),
            below: self.below,
        }
    }
}

// A seam where one column breaks.
fn draw_single<W: Write>(
    out: &mut W,
    x: i64,
    seam: Seam,
    bottom: i64,
    room: i64,
) -> io::Result<()> {
    let at = seam.last;
    writeln!(
        out,
        "<path d=\"M{x} 84V{bottom}\" class=\"single\"><title>{at}: one column breaks</title></path>"
    )?;
    if print_start(x, seam) < room {
        return Ok(());
    }
    let y = bottom.wrapping_add(14);
    writeln!(out, "<text x=\"{x}\" y=\"{y}\" class=\"at\">{at}</text>")
}

// A seam where several columns break.
fn draw_several<W: Write>(
    out: &mut W,
    x: i64,
    seam: Seam,
    bottom: i64,
    room: i64,
) -> io::Result<()> {
    let at = seam.last;
    let count = seam.count;
    writeln!(
        out,
        "<path d=\"M{x} 84V{bottom}\" class=\"several\"><title>{at}: {count} columns break</title></path>"
    )?;
    if print_start(x, seam) < room {
        return Ok(());
    }
    writeln!(
        out,
        "<g class=\"at several\"><text x=\"{x}\" y=\"64\">{at}</text><text x=\"{x}\" y=\"79\">{count} columns</text></g>"
    )
}

// Seams at several positions, on one x.
fn draw_near<W: Write>(out: &mut W, x: i64, seam: Seam, bottom: i64, room: i64) -> io::Result<()> {
    let first = seam.first;
    let last = seam.last;
    let count = seam.count;
    writeln!(
        out,
        "<path d=\"M{x} 84V{bottom}\" class=\"near\"><title>{count} breaks, from {first} up to {last}</title></path>"
    )?;
    if print_start(x, seam) < room {
        return Ok(());
    }
    writeln!(
        out,
        "<g class=\"at near\"><text x=\"{x}\" y=\"64\">{first} .. {last}</text><text x=\"{x}\" y=\"79\">{count} breaks</text></g>"
    )
}

fn draw_seam<W: Write>(out: &mut W, x: i64, seam: Seam, bottom: i64, room: Room) -> io::Result<()> {
    if seam.count == 0 {
        return Ok(());
    }
    if seam.is_near() {
        return draw_near(out, x, seam, bottom, room.above);
    }
    if seam.is_of_several() {
        return draw_several(out, x, seam, bottom, room.above);
    }
    draw_single(out, x, seam, bottom, room.below)
}

fn draw_seams<W: Write>(out: &mut W, seams: &Seams, bottom: i64) -> io::Result<()> {
    let mut room = Room {
        above: -100,
        below: -100,
    };
    for x in 0..(UNITS as u64).cast_signed() {
        let seam = seams.at(x);
        draw_seam(out, x, seam, bottom, room)?;
        room = room.after(x, seam);
    }
    Ok(())
}

// The start of a drawing.
fn draw_head<W: Write>(out: &mut W, height: i64) -> io::Result<()> {
    writeln!(
        out,
        "<svg xmlns=\"http://www.w3.org/2000/svg\" width=\"1320\" height=\"{height}\" viewBox=\"0 0 1320 {height}\">"
    )?;
    out.write_all(
        b"<style>
text { font: 13px sans-serif; fill: #222 }
text.head { font-size: 16px }
text.name { font-size: 14px; text-anchor: end }
text.value, .at, .at text { text-anchor: middle }
text.at, .at text { font-size: 12px; fill: #666 }
.at.several text { font-weight: bold; fill: #14479e }
.at.near text { font-weight: bold; fill: #b3261e }
path.single { stroke: #888; stroke-dasharray: 3 3 }
path.several { stroke: #14479e; stroke-width: 4 }
path.near { stroke: #b3261e; stroke-width: 4; stroke-dasharray: 7 3 }
path.break { stroke: #222; stroke-width: 2 }
.dot { fill: #14479e; stroke: #fff; stroke-width: 1.5 }
rect.fill { fill: #fff; stroke: #888; stroke-dasharray: 4 3 }
.c0 { fill: #cfd8dc } .c1 { fill: #ffe0a3 } .c2 { fill: #bfe3b4 } .c3 { fill: #f6c1c1 }
.c4 { fill: #c9d7f8 } .c5 { fill: #e6cdf2 } .c6 { fill: #b8e6e1 } .c7 { fill: #fbd0b0 }
.c8 { fill: #e4e8a6 } .c9 { fill: #d8cbb9 } .c10 { fill: #aed9f2 }
</style>
<rect width=\"100%\" height=\"100%\" fill=\"#fff\"/>
<g transform=\"translate(250,0)\">
",
    )
}

// A drawing with no position, which says why it has none.
fn draw_nothing<W: Write>(
    out: &mut W,
    window: Window,
    name: &str,
    columns: usize,
    length: i64,
) -> io::Result<()> {
    draw_head(out, 60)?;
    write!(
        out,
        "<text y=\"32\" class=\"head\">{name} of {columns} columns: no position from {}",
        window.from
    )?;
    if window.from < length {
        writeln!(out, " up to {}</text>", window.to)?;
    } else {
        writeln!(out, " on, as the columns end at {length}</text>")?;
    }
    out.write_all(b"</g>\n</svg>\n")
}

// What the lines mean, and the end of the drawing.
fn draw_legend<W: Write>(out: &mut W, bottom: i64) -> io::Result<()> {
    writeln!(out, "</g>")?;
    writeln!(
        out,
        "<g transform=\"translate(0,{})\">",
        bottom.wrapping_add(46)
    )?;
    out.write_all(
        b"<path d=\"M0 0h36\" class=\"single\"/><text x=\"44\" y=\"4\">one column breaks</text>
<path d=\"M190 0h36\" class=\"several\"/><circle cx=\"208\" r=\"5\" class=\"dot\"/><text x=\"234\" y=\"4\">columns with a dot break on this position</text>
<path d=\"M520 0h36\" class=\"near\"/><text x=\"564\" y=\"4\">breaks on several positions, too close to be drawn apart</text>
</g>
</g>
</svg>
",
    )
}

// The columns of a job, and the combination by a code below them.
pub fn draw<W: Write>(
    out: &mut W,
    window: Window,
    job: Job,
    name: &str,
    ends: &[i64],
    values: &[i64],
) -> io::Result<()> {
    let columns = job.columns();
    if window.to <= window.from {
        return draw_nothing(out, window, name, columns, sequence::length(ends));
    }
    let bottom = result_y(columns).wrapping_add(40);
    let mut seams = Seams::new();
    seams.mark_columns(window, job);
    let mut own = [FREE; LIST];
    let mut others = [FREE; LIST];
    let colours = Colours::new(&mut own, &mut others, job, values);
    let scene = Scene {
        window,
        seams: &seams,
        colours: &colours,
    };
    draw_head(out, bottom.wrapping_add(76))?;
    writeln!(
        out,
        "<text y=\"32\" class=\"head\">{name} of {columns} columns, positions {} up to {}</text>",
        window.from, window.to
    )?;
    writeln!(out, "<g>")?;
    draw_seams(out, &seams, bottom)?;
    scene.draw_columns(out, job)?;
    scene.draw_strip(out, result_y(columns), name, ends, values, 0)?;
    draw_legend(out, bottom)
}
