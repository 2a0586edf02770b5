// The fixed text of each number, with which its sentence begins.

// Numbers 1 to 10.
fn of_reading(number: u8) -> &'static str {
    match number {
        1 => "The picture is shorter than 72 bytes (76 in edition 2) or longer than 65,536",
        2 => "The picture's edition is neither 1 nor 2",
        3 => "The picture has no port, or more than 64",
        4 => "The total length in the header is not the picture's length",
        5 =>
            "The records or the vectors do not begin where they must, or the records go past the picture's end",
        6 => "A port breaks a rule of the tree, by its kind, its parent or as a later child",
        7 => "A port has more than 15 ports above it in its chain",
        8 =>
            "A port has a vector enabled that it does not support, a size or granularity that may not be, wrong low bits in a memory register, or bytes after ACS Control that are not zero",
        9 => "An enabled vector starts where it may not",
        _ =>
            "A port's vectors do not begin where they must, or the last ones do not end where the picture ends",
    }
}

// Numbers 0 to 15 and 18, which the check gives, and 30 to 32, which it also gives where there is a patch.
pub fn fixed_text(number: u8) -> &'static str {
    match number {
        0 => "Nothing was found wrong",
        11 => "An ID has two holders at one place, or a port claims its own ID",
        12 => "An address has two holders at one place",
        13 => "A port holds an ID that its parent does not claim",
        14 => "A port holds an address that its parent does not claim",
        15 => "A port's own ID is not both claimed and made Type 0 by its parent",
        18 =>
            "A port claims an ID that its parent makes Type 0 or refuses and does not pass on as Type 1",
        30 =>
            "The patch is too short for its header or its list of ports, or the total length in its header is not its length",
        31 => "A port stands twice in the patch, out of order, or is not in the picture",
        32 =>
            "A port's new vectors do not begin where they must, or the last ones do not end where the patch ends",
        _ => of_reading(number),
    }
}
