// The engine's record, by value: the core (all that demand 3 compares, and the rooms) and the command stream. Here are
// the fresh engine, the start, and the test that a record is sound. C has the same record.
#![tactic(auto)]

ghost use Rattle.std.specs.Prelude.{◌≡◌, true, cond, eqb};
ghost use Rattle.stream.specs.Pending.{packed_pending};
ghost use Rattle.state.specs.List.{is_list, list_of, number_of};
ghost use Rattle.state.specs.With.{answered};
ghost use Rattle.state.specs.Mode.{uses_pair};
ghost use Rattle.state.specs.Fresh.{fresh_transform, fresh_geometry, fresh_stream, fresh, start};
ghost use Rattle.state.specs.Fresh.{room_allowed, rooms_allowed};
ghost use Rattle.state.specs.Sound.{sound_transform, is_closed, needed, coloured, sound_waiting, sound_geometry};
ghost use Rattle.state.specs.Sound.{pending_of, sound_stream, sound};

use commands::{command_bytes, count, has_hole, is_known};
use matrix::Matrix;
use stream::Refusal;

// Position and vector: the current matrices, and the level that their two stacks share.
#[repr(C)]
#[derive(Clone, Copy)]
pub struct Pair {
    pub position: [i32; 16],
    pub vector: [i32; 16],
    pub level: usize,
}

// Projection or texture: the current matrix, and its stack of one slot.
#[repr(C)]
#[derive(Clone, Copy)]
pub struct Single {
    pub matrix: [i32; 16],
    pub slot: [i32; 16],
    pub level: usize,
}

// The matrices without the two long stacks. `mode` is what 10h set, `error` the error flag of the stacks.
#[repr(C)]
#[derive(Clone, Copy)]
pub struct Transform {
    pub pair: Pair,
    pub projection: Single,
    pub texture: Single,
    pub mode: u32,
    pub error: bool,
}

// The stacks of position and vector, 32 slots each. Slot k is the sixteen numbers from 16 * k on. Only the stack
// commands touch them.
#[repr(C)]
#[derive(Clone, Copy)]
pub struct Stacks {
    pub positions: [i32; 512],
    pub vectors: [i32; 512],
}

// The vertex position.
#[repr(C)]
#[derive(Clone, Copy)]
pub struct Coordinates {
    pub x: i16,
    pub y: i16,
    pub z: i16,
}

// How many numbers a vertex takes in the caller's buffer.
pub const VERTEX_WIDTH: usize = 5;

// The largest rooms.
pub const MOST_VERTICES: usize = 6144;

pub const MOST_POLYGONS: usize = 2048;

// How many colours there are: 20h keeps 15 bits.
pub const COLOURS: u32 = 32768;

// A vertex as the caller's buffer holds it: X, Y, Z, W and colour.
pub type VertexRecord = [i32; VERTEX_WIDTH];

// The list that 40h opened. A triangle strip keeps whether its next k is odd; for every other kind, and when closed,
// this reads even.
#[derive(Clone, Copy)]
pub enum OpenList {
    Closed,
    Triangles,
    Quads,
    TriangleStrip(bool),
    QuadStrip,
}

// The open list by its number (`list_of`), and the vertices that wait for its next polygon: the first `count` of three.
// Those past the count are free: nothing reads them. A number for the list, and three fields with a count: for C, which has
// no enum here.
#[repr(C)]
#[derive(Clone, Copy)]
pub struct Waiting {
    pub list: u32,
    pub first: VertexRecord,
    pub second: VertexRecord,
    pub third: VertexRecord,
    pub count: usize,
}

// Numbers of vertices and polygons.
#[repr(C)]
#[derive(Clone, Copy)]
pub struct Counts {
    pub vertices: usize,
    pub polygons: usize,
}

// `given` are the attributes last given by 29h, `attributes` those in force; `used` says how many records the caller's
// buffers hold, `rooms` (document 01's word for the capacities) how many they may hold.
#[repr(C)]
#[derive(Clone, Copy)]
pub struct Geometry {
    pub given: u32,
    pub attributes: u32,
    pub colour: u32,
    pub position: Coordinates,
    pub waiting: Waiting,
    pub used: Counts,
    pub rooms: Counts,
    pub overflow: bool,
}

// All that a command can touch but the two long stacks.
#[repr(C)]
#[derive(Clone, Copy)]
pub struct Registers {
    pub transform: Transform,
    pub geometry: Geometry,
}

// What the two sides of demand 3 are compared in, and the rooms.
#[repr(C)]
#[derive(Clone, Copy)]
pub struct Core {
    pub registers: Registers,
    pub stacks: Stacks,
}

// The command stream between two calls. `queue` is the rest of the packed command word, its next command lowest; bytes
// above its last command are free. `held` has the parameters so far of that command, or of the port command that is
// pending: the first `count` of 32. Those past the count are free: no call reads what another left there. `dummy`: the
// dummy word is due; `port`: the port command that is pending, 0 for none. An array with a count, and 0: for C.
#[repr(C)]
#[derive(Clone, Copy)]
pub struct Stream {
    pub queue: u32,
    pub held: [u32; 32],
    pub count: usize,
    pub dummy: bool,
    pub port: u8,
}

#[repr(C)]
#[derive(Clone, Copy)]
pub struct Engine {
    pub core: Core,
    pub stream: Stream,
}

// What a call that gives an engine answers: 0, or the number that it refuses with; a place; the engine. Numbers, for C.
#[repr(C)]
#[derive(Clone, Copy)]
pub struct Answer {
    pub number: u32,
    pub place: u32,
    pub engine: Engine,
}

// What a call of many words answers: 0, or the number that the first refused word is refused with; its index; how many
// were taken; the engine after those. For C.
#[repr(C)]
#[derive(Clone, Copy)]
pub struct ListAnswer {
    pub number: u32,
    pub place: usize,
    pub taken: usize,
    pub engine: Engine,
}

fn fresh_transform() -> Transform
    ensures { result ≡ fresh_transform }
{
    let unit = Matrix::UNIT;
    let single = Single {
        matrix: unit,
        slot: [0; 16],
        level: 0,
    };
    Transform {
        pair: Pair {
            position: unit,
            vector: unit,
            level: 0,
        },
        projection: single,
        texture: single,
        mode: 0,
        error: false,
    }
}

fn fresh_geometry() -> Geometry
    ensures { result ≡ fresh_geometry }
{
    Geometry {
        colour: 0,
        given: 0,
        attributes: 0,
        position: Coordinates { x: 0, y: 0, z: 0 },
        waiting: Waiting {
            list: 0,
            first: [0; VERTEX_WIDTH],
            second: [0; VERTEX_WIDTH],
            third: [0; VERTEX_WIDTH],
            count: 0,
        },
        used: Counts {
            vertices: 0,
            polygons: 0,
        },
        rooms: Counts {
            vertices: 1,
            polygons: 1,
        },
        overflow: false,
    }
}

fn fresh_stream() -> Stream
    ensures { result ≡ fresh_stream }
{
    Stream {
        queue: 0,
        held: [0; 32],
        count: 0,
        dummy: false,
        port: 0,
    }
}

// A room is from 1 to its limit.
fn room_allowed(limit: usize, n: usize) -> bool
    ensures { result ≡ room_allowed limit n }
{
    (1 <= n) & (n <= limit)
}

fn rooms_allowed(rooms: Counts) -> bool
    ensures { result ≡ rooms_allowed rooms.vertices rooms.polygons }
{
    room_allowed(MOST_VERTICES, rooms.vertices) & room_allowed(MOST_POLYGONS, rooms.polygons)
}

impl Engine {
    // The fresh engine, with rooms 1 and 1.
    pub fn fresh() -> Engine
        ensures { result ≡ fresh }
    {
        Engine {
            core: Core {
                registers: Registers {
                    transform: fresh_transform(),
                    geometry: fresh_geometry(),
                },
                stacks: Stacks {
                    positions: [0; 512],
                    vectors: [0; 512],
                },
            },
            stream: fresh_stream(),
        }
    }

    // The fresh engine with these rooms: 1 to 6,144 vertices and 1 to 2,048 polygons.
    pub fn start(vertices: usize, polygons: usize) -> Answer
        ensures { result ≡ start vertices polygons }
    {
        let rooms = Counts { vertices, polygons };
        let mut engine = Engine::fresh();
        if !rooms_allowed(rooms) {
            return answered(Refusal::NoRoom.into(), engine);
        }
        engine.core.registers.geometry.rooms = rooms;
        answered(0, engine)
    }

    // Whether the record is sound; the stacks are not looked at.
    pub fn is_sound(&self) -> bool
        ensures { result ≡ sound self.now }
    {
        self.core.registers.transform.is_sound()
            & self.core.registers.geometry.is_sound()
            & self.stream.is_sound()
    }
}

// An answer whose place is 0: 0, or the number that the call refuses with.
pub fn answered(number: u32, engine: Engine) -> Answer
    ensures { result ≡ answered number engine }
{
    Answer {
        number,
        place: 0,
        engine,
    }
}

// Modes 1 and 2 use position and vector.
pub fn uses_pair(mode: u32) -> bool
    ensures { result ≡ uses_pair mode }
{
    (mode == 1) | (mode == 2)
}

impl Transform {
    // Whether the matrices' part of a record is sound.
    pub fn is_sound(&self) -> bool
        ensures { result ≡ sound_transform self.now }
    {
        (self.mode <= 3)
            & (self.pair.level <= 63)
            & (self.projection.level <= 1)
            & (self.texture.level <= 1)
    }
}

// Whether the number stands for a list.
fn is_list(number: u32) -> bool
    ensures { result ≡ is_list number }
{
    number < 6
}

// The list of a number: 0 closed, 1 triangles, 2 quads, 3 a triangle strip whose next k is even, 4 one whose next k is
// odd, 5 a quad strip; closed for a number that stands for none, and then the record is not sound.
impl From<u32> for OpenList {
    ghost from_gives = { λ number list. list ≡ list_of number };

    fn from(number: u32) -> OpenList {
        match number {
            1 => OpenList::Triangles,
            2 => OpenList::Quads,
            3 => OpenList::TriangleStrip(false),
            4 => OpenList::TriangleStrip(true),
            5 => OpenList::QuadStrip,
            _ => OpenList::Closed,
        }
    }
}

impl From<OpenList> for u32 {
    ghost from_gives = { λ list number. number ≡ number_of list };

    fn from(list: OpenList) -> u32 {
        match list {
            OpenList::Closed => 0,
            OpenList::Triangles => 1,
            OpenList::Quads => 2,
            OpenList::TriangleStrip(false) => 3,
            OpenList::TriangleStrip(true) => 4,
            OpenList::QuadStrip => 5,
        }
    }
}

impl OpenList {
    // No list is open.
    pub fn is_closed(self) -> bool
        ensures { result ≡ is_closed self }
    {
        matches!(self, OpenList::Closed)
    }

    // How many vertices make a polygon of the list; a closed list makes none.
    pub fn needed(self) -> usize
        ensures { result ≡ needed self }
    {
        match self {
            OpenList::Closed => 0,
            OpenList::Triangles | OpenList::TriangleStrip(_) => 3,
            OpenList::Quads | OpenList::QuadStrip => 4,
        }
    }
}

// The vertex's colour is one.
fn is_coloured(v: VertexRecord) -> bool
    ensures { result ≡ coloured v }
{
    let z = v[4];
    (0 <= z) & (z < COLOURS as i32)
}

impl Waiting {
    fn is_sound(&self) -> bool
        ensures { result ≡ sound_waiting self.now }
    {
        let list = OpenList::from(self.list);
        let n = self.count;
        is_list(self.list)
            & ((list.is_closed() & (n == 0)) | (n < list.needed()))
            & ((n <= 0) | is_coloured(self.first))
            & ((n <= 1) | is_coloured(self.second))
            & ((n <= 2) | is_coloured(self.third))
    }
}

impl Geometry {
    // Whether the geometry part of a record is sound.
    pub fn is_sound(&self) -> bool
        ensures { result ≡ sound_geometry self.now }
    {
        (self.colour < COLOURS)
            & self.waiting.is_sound()
            & rooms_allowed(self.rooms)
            & (self.used.vertices <= self.rooms.vertices)
            & (self.used.polygons <= self.rooms.polygons)
    }
}

// The command that the held parameters belong to: the next one of the queue, else the port's.
fn first_of(next: u8, port: u8) -> u8
    ensures { result ≡ cond (eqb next 0) port next }
{
    if next == 0 { port } else { next }
}

impl Stream {
    // Whether the command stream of a record is sound.
    pub fn is_sound(&self) -> bool
        ensures { result ≡ sound_stream self.now }
    {
        let bytes = command_bytes(self.queue);
        let next = bytes[0];
        let port = self.port;
        let held = self.count;
        let n = count(first_of(next, port));
        !has_hole(bytes)
            & ((held < n) | ((next == 0) & (port == 0) & (held == 0)))
            & (!self.dummy | (next == 0))
            & (((next == 0) & !self.dummy) | (port == 0))
    }

    // A packed word has commands or its dummy to come. For the crates above this one: number 1 does not fall.
    pub fn is_packed_pending(&self) -> bool
        requires { sound_stream self.now ≡ true }
        ensures { result ≡ packed_pending (pending_of self.now) }
    {
        is_known((self.queue % 256) as u8) | self.dummy
    }
}
