//! Colourings.

use crate::running::{MESH, PATH, STAR, WEIGHTED, run, run_over, words_of};
use pg_base::{OpenGate, Status};
use std::test::Fail;

#[test]
fn one_rank_colours_by_first_fit(rt: HostRuntime) -> Result<(), Fail> {
    let alloc = rt.alloc();
    for (file, text) in [
        (PATH, "0\n1\n0\n"),
        (WEIGHTED, "0\n1\n0\n0\n"),
        (MESH, "0\n1\n2\n0\n1\n2\n1\n"),
        (STAR, "0\n1\n1\n1\n1\n1\n"),
        ("0 0\n", ""),
    ] {
        let words = ["colour", "B", "--threads", "2"];
        let seen = run(&rt, &words, file, Vec::new(alloc), Vec::new(alloc))?;
        assert_eq!(rt; seen.status, Status::Ok);
        assert_eq!(rt; seen.out.text(), text.as_bytes());
    }
    Ok(())
}

/// The edges of the mesh, by the places of their ends.
const MESH_EDGES: [(usize, usize); 11] = [
    (0, 1),
    (0, 2),
    (0, 4),
    (1, 2),
    (1, 3),
    (2, 3),
    (2, 4),
    (3, 5),
    (3, 6),
    (4, 5),
    (5, 6),
];

/// The line of a vertex, where each line has one digit.
fn digit_at(text: &[u8], place: usize) -> Option<&u8> {
    text.get(place.saturating_mul(2))
}

/// Whether the ends of each of the mesh's edges have lines of different colours, each of one digit.
fn is_proper(text: &[u8]) -> bool {
    let mut apart = text.len() == 14;
    for (u, v) in MESH_EDGES {
        apart = apart && digit_at(text, u) != digit_at(text, v);
    }
    apart
}

#[test]
fn no_edge_has_one_colour_on_any_number_of_ranks(rt: HostRuntime) -> Result<(), Fail> {
    let alloc = rt.alloc();
    for ranks in ["1", "2", "3", "7", "32"] {
        for capacity in ["1", "1024"] {
            let words = ["colour", "B", "--ranks", ranks, "--capacity", capacity];
            let seen = run(&rt, &words, MESH, Vec::new(alloc), Vec::new(alloc))?;
            assert_eq!(rt; seen.status, Status::Ok);
            assert!(rt; is_proper(seen.out.text()), "{ranks} {capacity}");
        }
    }
    Ok(())
}

#[test]
fn colours_go_by_the_owners_of_a_partition_file(rt: HostRuntime) -> Result<(), Fail> {
    let alloc = rt.alloc();
    for parts in ["0\n1\n3\n0\n1\n3\n0\n", "3\n3\n3\n0\n0\n0\n0\n"] {
        let named = [("B", MESH), ("P", parts)];
        let words = words_of(alloc, "colour B --ranks 4 --parts P ")?;
        let seen = run_over(
            &rt,
            &words,
            &named,
            Vec::new(alloc),
            Vec::new(alloc),
            &OpenGate,
        )?;
        assert_eq!(rt; seen.status, Status::Ok);
        assert!(rt; is_proper(seen.out.text()), "{parts}");
    }
    Ok(())
}
