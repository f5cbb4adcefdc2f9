use crate::Planes;
use std::test::*;

#[test]
fn rows_hold_what_was_set(rt: HostRuntime) -> Result<(), Fail> {
    let mut planes = Planes::new(rt.alloc(), 3, 4)?;
    assert_eq!(rt; planes.channels(), 3);
    assert_eq!(rt; planes.length(), 4);
    assert_eq!(rt; planes.at(2, 3), 0);
    planes.set(1, 0, -8_388_608);
    planes.set(1, 3, 8_388_607);
    planes.set(0, 3, i64::MIN);
    let samples = planes.samples_mut();
    assert_eq!(rt; samples.len(), 12);
    samples[8] = i64::MAX;
    let rows: [[i64; 4]; 3] = [
        [0, 0, 0, i64::MIN],
        [-8_388_608, 0, 0, 8_388_607],
        [i64::MAX, 0, 0, 0],
    ];
    for (c, row) in rows.iter().enumerate() {
        for (n, sample) in row.iter().enumerate() {
            assert_eq!(rt; planes.at(c, n), *sample, "row {c}, sample {n}");
        }
    }
    Ok(())
}

#[test]
fn planes_have_the_most_rows_and_samples(rt: HostRuntime) -> Result<(), Fail> {
    let planes = Planes::new(rt.alloc(), 255, 65535)?;
    assert_eq!(rt; planes.at(254, 65534), 0);
    let none = Planes::new(rt.alloc(), 0, 0)?;
    assert_eq!(rt; none.length(), 0);
    Ok(())
}
