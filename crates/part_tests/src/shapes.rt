// The parts of the test of a checkpoint's shape.

use checkpoint::Checkpoint;
use graph::{EDGE_BYTES, MAX_ORDER};
use mapping::{Checked, MappingError, UNMAPPED};

#[test]
fn steps(rt: HostRuntime) {
    let fresh = Checkpoint::fresh(3);
    for (depth, steps, finished, holds, fits) in [
        (0, 0, false, false, true),
        (0, 0, false, true, false),
        (0, 1, false, false, false),
        (2, 1, false, true, true),
        (2, 0, false, false, false),
        (0, 9, true, true, true),
        (0, 0, true, false, false),
        (2, 9, true, false, false),
    ] {
        let checkpoint = Checkpoint {
            depth,
            steps,
            finished,
            holds,
            ..fresh
        };
        assert_eq!(rt;
            checkpoint.steps_fit(),
            fits,
            "{depth} {steps} {finished} {holds}"
        );
    }
}

#[test]
fn unused_bytes(rt: HostRuntime) {
    let fresh = Checkpoint::fresh(0);
    let mut path = [0; MAX_ORDER];
    path[2] = 255;
    let mut incumbent = [0; MAX_ORDER];
    incumbent[3] = 7;
    for (depth, holds, order, fits) in [
        (3, true, 4, true),
        (64, true, 64, true),
        (65, true, 65, true),
        (2, true, 4, false),
        (2, true, 65, false),
        (3, true, 3, false),
        (3, false, 4, false),
    ] {
        let checkpoint = Checkpoint {
            depth,
            path,
            holds,
            incumbent,
            ..fresh
        };
        assert_eq!(rt;
            checkpoint.rest_fits(order),
            fits,
            "{depth} {holds} {order}"
        );
    }
    assert!(rt; fresh.rest_fits(0));
}

// A fresh checkpoint, and one of three old vertices that holds the mapping 0, 1, 2 of three pairs.
#[test]
fn shapes(rt: HostRuntime) {
    let at_fault: Checked = Err(MappingError::Length);
    let fresh = Checkpoint::fresh(2);
    assert!(rt; fresh.in_shape(0, Ok(0), Ok(0)), "nothing is held");
    assert!(rt;
        fresh.in_shape(65, Ok(0), at_fault),
        "nothing is held, whatever its bytes"
    );
    assert!(rt; !fresh.in_shape(0, at_fault, Ok(0)), "the path is at fault");
    let mut path = [0; MAX_ORDER];
    path[1] = 1;
    let mut incumbent = path;
    incumbent[2] = 2;
    let held = Checkpoint {
        depth: 2,
        steps: 5,
        path,
        holds: true,
        incumbent,
        ..fresh
    };
    assert!(rt;
        held.in_shape(3, Ok(2), Ok(3)),
        "what is held is above the minimum"
    );
    assert!(rt;
        held.in_shape(3, Ok(2), Ok(2)),
        "what is held reaches the minimum"
    );
    assert!(rt;
        !held.in_shape(3, Ok(2), Ok(1)),
        "what is held has too few pairs"
    );
    assert!(rt;
        !held.in_shape(3, Ok(2), at_fault),
        "what is held is at fault"
    );
    assert!(rt;
        !held.in_shape(1, Ok(2), Ok(3)),
        "the depth is above the order"
    );
    assert!(rt;
        !held.in_shape(2, Ok(2), Ok(3)),
        "a byte of no old vertex is not 0"
    );
    let unmoved = Checkpoint { steps: 0, ..held };
    assert!(rt; !unmoved.in_shape(3, Ok(2), Ok(3)), "no step is made");
    let finished = Checkpoint {
        finished: true,
        ..held
    };
    assert!(rt;
        !finished.in_shape(3, Ok(2), Ok(3)),
        "it is finished below the root"
    );
}

#[test]
fn held(rt: HostRuntime) {
    // an edge between the vertices 1 and 63
    let mut edges = [0; EDGE_BYTES];
    edges[MAX_ORDER + 63] = 9;
    edges[MAX_ORDER * 63 + 1] = 9;
    let mut incumbent = [UNMAPPED; MAX_ORDER];
    incumbent[1] = 0;
    incumbent[63] = 1;
    let together = Checkpoint {
        holds: true,
        incumbent,
        ..Checkpoint::fresh(0)
    };
    incumbent[2] = 2;
    let apart = Checkpoint {
        holds: true,
        incumbent,
        ..Checkpoint::fresh(0)
    };
    let nothing = Checkpoint {
        holds: false,
        ..apart
    };
    for (connected, rows, one, other) in [
        (true, 64, true, false),
        (true, 2, true, true),
        (true, 63, true, false),
        // more than 64 rows are all 64
        (true, 65, true, false),
        (false, 64, true, true),
    ] {
        assert_eq!(rt;
            together.held_admitted(connected, &edges, rows),
            one,
            "together {connected} {rows}"
        );
        assert_eq!(rt;
            apart.held_admitted(connected, &edges, rows),
            other,
            "apart {connected} {rows}"
        );
        assert!(rt;
            nothing.held_admitted(connected, &edges, rows),
            "nothing {connected} {rows}"
        );
    }
}
