// Where the two editions of graph bytes differ, with the numbers of the document.

use graph_reader::{Edition, Fault};

#[test]
fn opens(rt: HostRuntime) {
    assert_eq!(rt; Edition::One.judge_opening(&[]), Ok(()));
    assert_eq!(rt; Edition::One.judge_opening(&[7, 7]), Ok(()));
    assert_eq!(rt; Edition::Two.judge_opening(&[4, 2]), Ok(()));
    assert_eq!(rt; Edition::Two.judge_opening(&[4, 2, 9]), Ok(()));
    assert_eq!(rt; Edition::Two.judge_opening(&[]), Err(Fault::Truncated));
    assert_eq!(rt; Edition::Two.judge_opening(&[4]), Err(Fault::Truncated));
    assert_eq!(rt; Edition::Two.judge_opening(&[2]), Err(Fault::OtherEdition));
    assert_eq!(rt;
        Edition::Two.judge_opening(&[4, 1]),
        Err(Fault::OtherEdition)
    );
    assert_eq!(rt;
        Edition::Two.judge_opening(&[1, 5, 0]),
        Err(Fault::OtherEdition)
    );
}

#[test]
fn differs(rt: HostRuntime) {
    assert_eq!(rt; Edition::One.opening_width(), 0);
    assert_eq!(rt; Edition::Two.opening_width(), 2);
    assert_eq!(rt; Edition::One.vertex_code(), 1);
    assert_eq!(rt; Edition::Two.vertex_code(), 3);
    assert_eq!(rt; Edition::One.vertex_width(), 2);
    assert_eq!(rt; Edition::Two.vertex_width(), 3);
    assert_eq!(rt; Edition::One.greatest_label(), 255);
    assert_eq!(rt; Edition::Two.greatest_label(), 65535);
}

#[test]
fn labels(rt: HostRuntime) {
    assert_eq!(rt; Edition::One.vertex_label(&[1, 200]), 200);
    assert_eq!(rt; Edition::One.vertex_label(&[1, 200, 3]), 200);
    assert_eq!(rt; Edition::Two.vertex_label(&[3, 1, 2]), 513);
    assert_eq!(rt; Edition::Two.vertex_label(&[3, 1, 2, 9]), 513);
    // what is not there counts as 0
    assert_eq!(rt; Edition::One.vertex_label(&[]), 0);
    assert_eq!(rt; Edition::One.vertex_label(&[1]), 0);
    assert_eq!(rt; Edition::Two.vertex_label(&[]), 0);
    assert_eq!(rt; Edition::Two.vertex_label(&[3, 200]), 200);
}
