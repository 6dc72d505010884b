// The text of an engine and the caller's two buffers, as the program `replay` prints it, put into a buffer of bytes.
#![tactic(auto, using(crate::proofs::ReadoutLaws::text_rules, std::proofs::lemmas::Grind::common_steps))]

ghost use Rattle.std.specs.Prelude.{◌≡◌, true, ◌++◌, ◌+◌, ◌*◌, ◌<◌, ◌≤◌, length};
ghost use Rattle.stream.specs.Call.{machine};
ghost use Rattle.state.specs.Sizes.{most_vertices, most_polygons};
ghost use Rattle.state.specs.Sound.{sound_transform, sound_geometry, pending_of, sound_stream, sound};
ghost use Rattle.polygons.specs.Buffers.{buffered, long_enough};
ghost use Rattle.listing.specs.Text.{number_line};
ghost use Rattle.listing.specs.Buffer.{HasRoom, with_bytes};
ghost use Rattle.readout.specs.Numbers.{signed_text, spaced_number, spaced, numbers_line, chunks};
ghost use Rattle.readout.specs.Readout.{flag, levels_line, attributes_line, position_line, list_line, transform_text};
ghost use Rattle.readout.specs.Readout.{geometry_text, pending_line, matrices_text, vertex_line, polygon_line};
ghost use Rattle.readout.specs.Readout.{vertex_lines, waiting_text, polygon_lines, registers_text, lists_text, machine_text};

use listing::Text;
use matrix::clip_matrix;
use polygons::POLYGON_WIDTH;
use registers::status_word;
use state::{
    Coordinates, Engine, Geometry, OpenList, Registers, Stream, Transform, VERTEX_WIDTH, Waiting,
};

// Every function here puts its text behind that of `text`. The public one is for the crates above, which have a buffer
// that is long enough.

// A signed number in decimal.
fn put_signed(text: &mut Text, n: i32)
    requires { HasRoom text.old 11 }
    ensures { text.new ≡ with_bytes text.old (signed_text n) }
{
    let mut digits = itoa::Buffer::new();
    text.put(digits.format(n).as_bytes());
}

// A space and a number.
#[tactic(auto, using(crate::proofs::ReadoutLaws::text_rules), unfolding(crate::specs::Numbers::spaced_number))]
fn put_spaced_number(text: &mut Text, n: i32)
    requires { HasRoom text.old 12 }
    ensures { text.new ≡ with_bytes text.old (spaced_number n) }
{
    text.put(b" ");
    put_signed(text, n);
}

// Numbers, a space before each.
fn put_spaced(text: &mut Text, numbers: &[i32])
    requires { HasRoom text.old (12 * length numbers.now) }
    ensures { text.new ≡ with_bytes text.old (spaced numbers.now) }
{
    for number in numbers {
        put_spaced_number(text, *number);
    }
}

// A line of a name and numbers.
#[tactic(auto, using(crate::proofs::ReadoutLaws::text_rules), unfolding(crate::specs::Numbers::numbers_line))]
fn put_numbers_line(text: &mut Text, name: &[u8], numbers: &[i32])
    requires { HasRoom text.old (length name.now + 12 * length numbers.now + 1) }
    ensures { text.new ≡ with_bytes text.old (numbers_line name.now numbers.now) }
{
    text.put(name);
    put_spaced(text, numbers);
    text.put(b"\n");
}

// A line of a name, with the space behind it, and 1 where the flag is set, else 0.
fn put_flag_line(text: &mut Text, name: &[u8], is_set: bool)
    requires { HasRoom text.old (length name.now + 11) }
    ensures { text.new ≡ with_bytes text.old (number_line name.now (flag is_set)) }
{
    text.put_number_line(name, u32::from(is_set));
}

// The levels.
#[tactic(auto, using(crate::proofs::ReadoutLaws::text_rules), unfolding(crate::specs::Readout::levels_line))]
fn put_levels(text: &mut Text, s: usize, p: usize, t: usize)
    requires s_bound { (s ≤ 63) × (p ≤ 1) × (t ≤ 1) }
    requires room { HasRoom text.old 40 }
    ensures { text.new ≡ with_bytes text.old (levels_line s p t) }
{
    text.put(b"levels ");
    text.put_decimal(s as u32);
    text.put(b" ");
    text.put_decimal(p as u32);
    text.put_number_line(b" ", t as u32);
}

// The status word, the mode, the levels.
#[tactic(auto, using(crate::proofs::ReadoutLaws::text_rules), unfolding(crate::specs::Readout::transform_text))]
fn put_transform(text: &mut Text, t: &Transform)
    requires sound { sound_transform t.now ≡ true }
    requires room { HasRoom text.old 72 }
    ensures { text.new ≡ with_bytes text.old (transform_text t.now) }
{
    text.put(b"status ");
    text.put_word_line(status_word(t));
    text.put_number_line(b"mode ", t.mode);
    put_levels(text, t.pair.level, t.projection.level, t.texture.level);
}

// The attributes last given, and those in force.
#[tactic(auto, using(crate::proofs::ReadoutLaws::text_rules), unfolding(crate::specs::Readout::attributes_line))]
fn put_attributes(text: &mut Text, given: u32, force: u32)
    requires { HasRoom text.old 29 }
    ensures { text.new ≡ with_bytes text.old (attributes_line given force) }
{
    text.put(b"attributes ");
    text.put_hex(given);
    text.put(b" ");
    text.put_word_line(force);
}

// The vertex position.
#[tactic(auto, using(crate::proofs::ReadoutLaws::text_rules), unfolding(crate::specs::Readout::position_line))]
fn put_position(text: &mut Text, p: Coordinates)
    requires { HasRoom text.old 45 }
    ensures { text.new ≡ with_bytes text.old (position_line p) }
{
    let numbers = [i32::from(p.x), i32::from(p.y), i32::from(p.z)];
    put_numbers_line(text, b"position", &numbers);
}

// The open list.
#[tactic(auto, using(crate::proofs::ReadoutLaws::text_rules), unfolding(crate::specs::Readout::list_line))]
fn put_list(text: &mut Text, list: OpenList)
    requires { HasRoom text.old 25 }
    ensures { text.new ≡ with_bytes text.old (list_line list) }
{
    match list {
        OpenList::Closed => text.put(b"list closed\n"),
        OpenList::Triangles => text.put(b"list triangles\n"),
        OpenList::Quads => text.put(b"list quads\n"),
        OpenList::TriangleStrip(true) => text.put(b"list triangle-strip odd\n"),
        OpenList::TriangleStrip(false) => text.put(b"list triangle-strip even\n"),
        OpenList::QuadStrip => text.put(b"list quad-strip\n"),
    }
}

// The overflow flag, the colour, the attributes, the position, the open list.
#[tactic(auto, using(crate::proofs::ReadoutLaws::text_rules), unfolding(crate::specs::Readout::geometry_text))]
fn put_geometry(text: &mut Text, g: &Geometry)
    requires { HasRoom text.old 137 }
    ensures { text.new ≡ with_bytes text.old (geometry_text g.now) }
{
    put_flag_line(text, b"overflow ", g.overflow);
    text.put_number_line(b"colour ", g.colour);
    put_attributes(text, g.given, g.attributes);
    put_position(text, g.position);
    put_list(text, OpenList::from(g.waiting.list));
}

// Whether a command is pending.
#[tactic(auto, using(crate::proofs::ReadoutLaws::text_rules), unfolding(crate::specs::Readout::pending_line, state::specs::Sound::pending_of))]
fn put_pending(text: &mut Text, s: &Stream)
    requires sound { sound_stream s.now ≡ true }
    requires room { HasRoom text.old 19 }
    ensures { text.new ≡ with_bytes text.old (pending_line (pending_of s.now)) }
{
    let is_pending = s.is_packed_pending() | (s.port != 0);
    put_flag_line(text, b"pending ", is_pending);
}

// The four matrices, and the clip matrix.
#[tactic(auto, using(crate::proofs::ReadoutLaws::text_rules), unfolding(crate::specs::Readout::matrices_text))]
fn put_matrices(text: &mut Text, t: &Transform)
    requires { HasRoom text.old 1007 }
    ensures puts { text.new ≡ with_bytes text.old (matrices_text t.now) }
    ensures within { text.new.length ≤ text.old.length + 1007 }
{
    put_numbers_line(text, b"projection", &t.projection.matrix);
    put_numbers_line(text, b"position-matrix", &t.pair.position);
    put_numbers_line(text, b"vector", &t.pair.vector);
    put_numbers_line(text, b"texture", &t.texture.matrix);
    let clip = clip_matrix(t.pair.position, t.projection.matrix);
    put_numbers_line(text, b"clip", &clip);
}

// A line for a vertex.
#[tactic(auto, using(crate::proofs::ReadoutLaws::text_rules), unfolding(crate::specs::Readout::vertex_line))]
fn put_vertex_line(text: &mut Text, vertex: &[i32; VERTEX_WIDTH])
    requires { HasRoom text.old 60 }
    ensures puts { text.new ≡ with_bytes text.old (vertex_line vertex.now) }
    ensures within { text.new.length ≤ text.old.length + 60 }
{
    // by index: the borrow checker does not cover a pattern `[first, rest @ ..]` behind a reference
    put_signed(text, vertex[0]);
    put_numbers_line(text, b"", &vertex[1..]);
}

// A name with the space behind it, how many vertices there are, and a line for each.
fn put_vertices(text: &mut Text, name: &[u8], vertices: &[[i32; VERTEX_WIDTH]])
    requires few { length vertices.now ≤ most_vertices }
    requires room { HasRoom text.old (length name.now + 11 + 60 * length vertices.now) }
    ensures puts { text.new ≡ with_bytes text.old
        (number_line name.now (length vertices.now) ++ vertex_lines vertices.now) }
    ensures within { text.new.length ≤ text.old.length + (length name.now + 11 + 60 * length vertices.now) }
{
    text.put_number_line(name, vertices.len() as u32);
    for vertex in vertices {
        put_vertex_line(text, vertex);
    }
}

// The vertices that wait.
#[tactic(auto, using(crate::proofs::ReadoutLaws::text_rules), unfolding(crate::specs::Readout::waiting_text))]
fn put_waiting(text: &mut Text, w: &Waiting)
    requires few { w.now.count ≤ 3 }
    requires room { HasRoom text.old 199 }
    ensures puts { text.new ≡ with_bytes text.old (waiting_text w.now) }
    ensures within { text.new.length ≤ text.old.length + 199 }
{
    let vertices = [w.first, w.second, w.third];
    put_vertices(text, b"waiting ", &vertices[..w.count]);
}

// A line for a polygon.
#[tactic(auto, using(crate::proofs::ReadoutLaws::text_rules), unfolding(crate::specs::Readout::polygon_line))]
fn put_polygon_line(text: &mut Text, polygon: &[u32; POLYGON_WIDTH])
    requires { HasRoom text.old 31 }
    ensures { text.new ≡ with_bytes text.old (polygon_line polygon.now) }
{
    let [first, count, attributes] = polygon;
    text.put_decimal(*first);
    text.put(b" ");
    text.put_decimal(*count);
    text.put(b" ");
    text.put_word_line(*attributes);
}

// A name with the space behind it, how many polygons there are, and a line for each.
fn put_polygons(text: &mut Text, name: &[u8], polygons: &[[u32; POLYGON_WIDTH]])
    requires few { length polygons.now ≤ most_polygons }
    requires room { HasRoom text.old (length name.now + 11 + 31 * length polygons.now) }
    ensures puts { text.new ≡ with_bytes text.old
        (number_line name.now (length polygons.now) ++ polygon_lines polygons.now) }
    ensures within { text.new.length ≤ text.old.length + (length name.now + 11 + 31 * length polygons.now) }
{
    text.put_number_line(name, polygons.len() as u32);
    for polygon in polygons {
        put_polygon_line(text, polygon);
    }
}

// The first `count` records of a buffer, N numbers each.
fn first_records<T, const N: usize>(buffer: &[T], count: usize) -> &[[T; N]]
    requires width { 0 < N }
    requires holds { N * count ≤ length buffer.now }
    ensures records { result.now ≡ chunks N count buffer.now }
    ensures len { length result.now ≡ count }
{
    let (records, _) = buffer.as_chunks::<N>();
    &records[..count]
}

// The registers, and whether a command is pending.
#[tactic(auto, using(crate::proofs::ReadoutLaws::text_rules), unfolding(crate::specs::Readout::registers_text))]
fn put_registers(text: &mut Text, r: &Registers, s: &Stream)
    requires sound { (sound_transform r.now.transform ≡ true) × (sound_stream s.now ≡ true) }
    requires room { HasRoom text.old 1235 }
    ensures puts { text.new ≡ with_bytes text.old (registers_text r.now (pending_of s.now)) }
    ensures within { text.new.length ≤ text.old.length + 1235 }
{
    put_transform(text, &r.transform);
    put_geometry(text, &r.geometry);
    put_pending(text, s);
    put_matrices(text, &r.transform);
}

// The vertices that wait, and as much of both buffers as is used.
fn put_lists(text: &mut Text, g: &Geometry, vertices: &[i32], polygons: &[u32])
    requires sound { sound_geometry g.now ≡ true }
    requires buffers_long { long_enough g.now.rooms (length vertices.now) (length polygons.now) ≡ true }
    requires room { HasRoom text.old 432367 }
    ensures puts { text.new ≡ with_bytes text.old (lists_text g.now vertices.now polygons.now) }
    ensures within { text.new.length ≤ text.old.length + 432367 }
{
    put_waiting(text, &g.waiting);
    put_vertices(text, b"vertices ", first_records(vertices, g.used.vertices));
    put_polygons(text, b"polygons ", first_records(polygons, g.used.polygons));
}

// All of an engine and the caller's two buffers: at most 433,602 bytes, 60 for each of 6,144 vertices, 31 for each of
// 2,048 polygons and 1,474 more. For the crates above: numbers 1 and 2 do not fall.
#[tactic(auto, using(crate::proofs::ReadoutLaws::text_rules), unfolding(crate::specs::Readout::machine_text))]
pub fn put_engine(text: &mut Text, e: &Engine, vertices: &[i32], polygons: &[u32])
    requires sound { sound e.now ≡ true }
    requires buffers_long { long_enough e.now.core.registers.geometry.rooms (length vertices.now)
        (length polygons.now) ≡ true }
    requires room { HasRoom text.old 433602 }
    ensures puts { text.new ≡ with_bytes text.old
        (machine_text (machine (buffered e.now.core vertices.now polygons.now) (pending_of e.now.stream))) }
    ensures within { text.new.length ≤ text.old.length + 433602 }
{
    let registers = &e.core.registers;
    put_registers(text, registers, &e.stream);
    put_lists(text, &registers.geometry, vertices, polygons);
}
