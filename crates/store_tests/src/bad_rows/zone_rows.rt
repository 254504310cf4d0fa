//! Rows of zones, of their entries and elements, and of the numbers by which entries were installed.

use crate::bad_rows::{NO_STATE, Part, check};
use std::test::Fail;

/// The zone TGT1, its entries and its elements.
const ZONE: &[&str] = &[
    "UPDATE zone SET kind = 'TARGET' WHERE name = 'TGT1'",
    "UPDATE zone SET kind = 'dlib' WHERE name = 'TGT1'",
    "UPDATE zone SET kind = '' WHERE name = 'TGT1'",
    "UPDATE zone SET srel = 'Z38' WHERE name = 'TGT1'",
    "UPDATE zone SET srel = 'z038' WHERE name = 'TGT1'",
    "UPDATE zone SET srel = '' WHERE name = 'TGT1'",
    "UPDATE zone SET related = NULL WHERE name = 'TGT1'",
    "UPDATE zone SET related = '1DLB' WHERE name = 'TGT1'",
    "UPDATE zone SET related = 'dlb1' WHERE name = 'TGT1'",
    "UPDATE zone SET related = '' WHERE name = 'TGT1'",
    "UPDATE zone SET related = 'DLB12345' WHERE name = 'TGT1'",
    "UPDATE zone SET kind = 'distribution' WHERE name = 'TGT1'",
    "UPDATE entry SET date = '24138' WHERE id = 'UAA0001'",
    "UPDATE entry SET date = '24.000' WHERE id = 'UAA0001'",
    "UPDATE entry SET date = '24.367' WHERE id = 'UAA0001'",
    "UPDATE entry SET date = '24.1' WHERE id = 'UAA0001'",
    "UPDATE entry SET date = '2024.138' WHERE id = 'UAA0001'",
    "UPDATE entry SET date = '24-138' WHERE id = 'UAA0001'",
    "UPDATE entry SET date = '-' WHERE id = 'UAA0001'",
    "UPDATE entry SET date = '' WHERE id = 'UAA0001'",
    "UPDATE entry SET supby = '' WHERE id = 'AAA0001'",
    "UPDATE entry SET delby = NULL WHERE id = 'HAA1000'",
    "UPDATE entry SET date = NULL WHERE id = 'HAA1100'",
    "UPDATE entry SET date = NULL WHERE id = 'UAA0001'",
    "UPDATE entry SET waived = 'UAA0002' WHERE id = 'AAA0001'",
    "UPDATE zelem SET type = 'Mac' WHERE zone = 'TGT1' AND name = 'MAC2'",
    "UPDATE zelem SET type = 'MEMBER' WHERE zone = 'TGT1' AND name = 'MAC2'",
    "UPDATE zelem SET type = '' WHERE zone = 'TGT1' AND name = 'MAC2'",
    "UPDATE zelem SET text = x'41' WHERE zone = 'TGT1' AND name = 'MAC2'",
];

/// Zones, and what they say about each other.
const ZONES: &[&str] = &[
    "UPDATE zone SET name = 'GLOBAL' WHERE name = 'DLB3'",
    "UPDATE zone SET name = '1DLB' WHERE name = 'DLB3'",
    "UPDATE zone SET name = 'dlb3' WHERE name = 'DLB3'",
    "UPDATE zone SET name = 'DLB34567' WHERE name = 'DLB3'",
    "UPDATE zone SET name = '$DLB' WHERE name = 'DLB3'",
    "UPDATE zone SET name = '' WHERE name = 'DLB3'",
    "UPDATE zone SET kind = 'dlib' WHERE name = 'DLB3'",
    "UPDATE zone SET kind = 'TARGET' WHERE name = 'DLB3'",
    "UPDATE zone SET kind = '' WHERE name = 'DLB3'",
    "UPDATE zone SET srel = 'Z38' WHERE name = 'DLB3'",
    "UPDATE zone SET related = 'DLB1' WHERE name = 'DLB3'",
    "UPDATE zone SET related = NULL WHERE name = 'TGT2'",
    "UPDATE zone SET related = 'dlb2' WHERE name = 'TGT2'",
    "UPDATE zone SET related = 'DLB4' WHERE name = 'TGT2'",
    "DELETE FROM zone WHERE name = 'DLB2'",
    "UPDATE zone SET related = 'DLB3' WHERE name = 'TGT2'",
    "UPDATE zone SET srel = 'Z038' WHERE name = 'DLB2'",
    "UPDATE zone SET related = 'TGT1' WHERE name = 'TGT2'",
    "UPDATE zone SET related = 'TGT2' WHERE name = 'TGT2'",
    "UPDATE zone SET related = 'DLB1', srel = 'Z038' WHERE name = 'TGT2'",
    "UPDATE zone SET kind = 'target', related = 'DLB1' WHERE name = 'DLB3'",
];

/// Numbers of applied entries that are not 1.
const GOOD_NUMBERS: &[&str] = &[
    "INSERT INTO chosen (zone, id, n) VALUES ('TGT1', 'UAA0001', 2)",
    "INSERT INTO chosen (zone, id, n) VALUES ('TGT1', 'UAA0001', 9223372036854775807)",
    "INSERT INTO chosen (zone, id, n) VALUES ('TGT1', 'UAA0001', 3), ('TGT1', 'HAA1100', 2)",
    "INSERT INTO chosen (zone, id, n) VALUES ('DLB1', 'HAA1100', 2)",
];

/// Numbers below 2, and numbers of entries that are not applied or do not exist.
const BAD_NUMBERS: &[&str] = &[
    "INSERT INTO chosen (zone, id, n) VALUES ('TGT1', 'UAA0001', 1)",
    "INSERT INTO chosen (zone, id, n) VALUES ('TGT1', 'UAA0001', 0)",
    "INSERT INTO chosen (zone, id, n) VALUES ('TGT1', 'UAA0001', -1)",
    "INSERT INTO chosen (zone, id, n) VALUES ('TGT1', 'UAA0001', -9223372036854775807)",
    "INSERT INTO chosen (zone, id, n) VALUES ('TGT1', 'AAA0001', 2)",
    "INSERT INTO chosen (zone, id, n) VALUES ('TGT1', 'HAA1000', 2)",
    "INSERT INTO chosen (zone, id, n) VALUES ('TGT1', 'AAA0000', 2)",
    "INSERT INTO chosen (zone, id, n) VALUES ('TGT1', 'HAA1200', 2)",
    "INSERT INTO chosen (zone, id, n) VALUES ('TGT1', 'UZZ9999', 2)",
    "INSERT INTO chosen (zone, id, n) VALUES ('TGT1', 'UAA0001', 2), ('TGT1', 'HAA1200', 2)",
    "INSERT INTO chosen (zone, id, n) VALUES ('TGT1', 'uaa0001', 2)",
    "INSERT INTO chosen (zone, id, n) VALUES ('TGT1', 'UAA001', 2)",
    "INSERT INTO chosen (zone, id, n) VALUES ('TGT1', '', 2)",
    "INSERT INTO chosen (zone, id, n) VALUES ('TGT1', 'UAA0001', 2); DELETE FROM entry WHERE id = 'UAA0001'",
];

#[test]
fn zones_that_stand_for_no_state_are_told(rt: HostRuntime) -> Result<(), Fail> {
    check(rt.alloc(), ZONE, Part::Zone, NO_STATE)?;
    check(rt.alloc(), ZONES, Part::Names, NO_STATE)?;
    check(rt.alloc(), ZONES, Part::Heads, NO_STATE)?;
    check(rt.alloc(), GOOD_NUMBERS, Part::Zone, None)?;
    check(rt.alloc(), BAD_NUMBERS, Part::Zone, NO_STATE)
}
