// Entries for the checks alone; the product has none of them. A whole log, or a piece of one, in one call: for the
// comparison and the benchmark of `checks/rust`. An engine with a mark in every member: for `checks/c`, which compares
// the layout of C's structs with it.
#![tactic(auto)]

ghost use Rattle.std.specs.Prelude.{◌≡◌};
ghost use Rattle.stream.specs.Read.{writes};
ghost use Rattle.stream.specs.Feed.{place_of};
ghost use Rattle.execute.specs.Call.{machine_of, fed_of, FirstGivenBack, writes_reply};
ghost use Rattle.probe.specs.Marks.{marked_transform, marked_geometry, marked_stacks, marked_stream, marked};

use engine::feed_writes;
use state::{
    Coordinates, Core, Counts, Engine, Geometry, ListAnswer, Pair, Registers, Single, Stacks,
    Stream, Transform, Waiting,
};

// The port writes of a log in one call, as `engine::feed_writes`.
#[unsafe(no_mangle)]
pub extern "C" fn probe_feed_writes(
    e: Engine,
    log: &[u32],
    vertices: &mut [i32],
    polygons: &mut [u32],
) -> ListAnswer
    ensures reply { fed_of result vertices.new polygons.new
        ≡ writes_reply (machine_of e vertices.old polygons.old) (writes log.now) }
    ensures place_value { result.place ≡ place_of result.number result.taken }
    ensures first_given_back { FirstGivenBack e result }
{
    feed_writes(e, log, vertices, polygons)
}

// An engine, and a number behind it, where a C struct of the same members has it.
#[repr(C)]
#[derive(Clone, Copy)]
pub struct Marked {
    pub engine: Engine,
    pub after: u32,
}

fn marked_transform() -> Transform
    ensures { result ≡ marked_transform }
{
    Transform {
        pair: Pair {
            position: [-0x0100_0001; 16],
            vector: [-0x0200_0002; 16],
            level: 0x0300_0000_0000_0003,
        },
        projection: Single {
            matrix: [-0x0400_0004; 16],
            slot: [-0x0500_0005; 16],
            level: 0x0600_0000_0000_0006,
        },
        texture: Single {
            matrix: [-0x0700_0007; 16],
            slot: [-0x0800_0008; 16],
            level: 0x0900_0000_0000_0009,
        },
        mode: 0x0a00_000a,
        error: true,
    }
}

fn marked_geometry() -> Geometry
    ensures { result ≡ marked_geometry }
{
    Geometry {
        given: 0x0b00_000b,
        attributes: 0x0c00_000c,
        colour: 0x0d00_000d,
        position: Coordinates {
            x: -0x0e0e,
            y: -0x0f0f,
            z: -0x1010,
        },
        waiting: Waiting {
            list: 0x1100_0011,
            first: [-0x1200_0012; 5],
            second: [-0x1300_0013; 5],
            third: [-0x1400_0014; 5],
            count: 0x1500_0000_0000_0015,
        },
        used: Counts {
            vertices: 0x1600_0000_0000_0016,
            polygons: 0x1700_0000_0000_0017,
        },
        rooms: Counts {
            vertices: 0x1800_0000_0000_0018,
            polygons: 0x1900_0000_0000_0019,
        },
        overflow: true,
    }
}

fn marked_stacks() -> Stacks
    ensures { result ≡ marked_stacks }
{
    Stacks {
        positions: [-0x1a00_001a; 512],
        vectors: [-0x1b00_001b; 512],
    }
}

fn marked_stream() -> Stream
    ensures { result ≡ marked_stream }
{
    Stream {
        queue: 0x1c00_001c,
        held: [0x1d00_001d; 32],
        count: 0x1e00_0000_0000_001e,
        dummy: true,
        port: 0x1f,
    }
}

// A mark in every member of an engine; it is not sound.
#[unsafe(no_mangle)]
pub extern "C" fn probe_marks() -> Marked
    ensures { result ≡ marked }
{
    Marked {
        engine: Engine {
            core: Core {
                registers: Registers {
                    transform: marked_transform(),
                    geometry: marked_geometry(),
                },
                stacks: marked_stacks(),
            },
            stream: marked_stream(),
        },
        after: 0x2000_0020,
    }
}
