// The tables that the cases change.

// The document's table, one signal that is the root of two properties, or a ladder: a signal, then each node is the one before and the
// signal, one after the other; the last is of this kind, on the one before, and is the root.
#[derive(Clone, Copy)]
pub(crate) enum Base {
    Document,
    Booleans,
    Ladder { nodes: u8, kind: u8 },
}

pub(crate) fn ladder(nodes: u8, kind: u8) -> Base {
    Base::Ladder { nodes, kind }
}

impl Base {
    pub(crate) fn length(self) -> usize {
        match self {
            Base::Document => 42,
            Base::Booleans => 24,
            Base::Ladder { nodes, .. } => 18 + 4 * usize::from(nodes),
        }
    }

    pub(crate) fn put(self, table: &mut [u8]) {
        match self {
            Base::Document => put_all(
                table,
                b"\x01\x00\x03\x00\x05\x00\x03\x00\x10\x00\x24\x00\x2a\x00\x00\x00\x03\x00\x00\x00\x03\x01\x00\x00\x27\x00\x01\x00\x26\x00\x00\x00\x22\x01\x00\x00\x02\x00\x03\x00\x04\x00",
            ),
            Base::Booleans => put_all(
                table,
                b"\x01\x00\x01\x00\x01\x00\x02\x00\x10\x00\x14\x00\x18\x00\x00\x00\x03\x00\x00\x00\x00\x00\x00\x00",
            ),
            Base::Ladder { nodes, kind } => put_ladder(table, nodes, kind),
        }
    }
}

pub(crate) fn put(table: &mut [u8], at: usize, value: u8) {
    if let Some(byte) = table.get_mut(at) {
        *byte = value;
    }
}

fn put_all(table: &mut [u8], bytes: &[u8]) {
    for (byte, value) in table.iter_mut().zip(bytes) {
        *byte = *value;
    }
}

fn put_two(table: &mut [u8], at: usize, value: u16) {
    let [low, high] = value.to_le_bytes();
    put(&mut *table, at, low);
    put(&mut *table, at.saturating_add(1), high);
}

fn put_row(table: &mut [u8], node: u8, kind: u8, a: u8) {
    let at = 16 + 4 * usize::from(node);
    put(&mut *table, at, kind);
    put(&mut *table, at + 1, a);
}

fn put_header(table: &mut [u8], nodes: u8) {
    let roots = 16 + 4 * u16::from(nodes);
    put_all(&mut *table, b"\x01\x00\x01\x00\x00\x00\x01\x00\x10");
    put(&mut *table, 4, nodes);
    put_two(&mut *table, 10, roots);
    put_two(&mut *table, 12, roots + 2);
}

fn put_ladder(table: &mut [u8], nodes: u8, kind: u8) {
    if 2 <= nodes {
        put_header(&mut *table, nodes);
        put_row(&mut *table, 0, 3, 0);
        for node in 1..nodes {
            put_row(&mut *table, node, 16, node - 1);
        }
        put_row(&mut *table, nodes - 1, kind, nodes - 2);
        put(&mut *table, 16 + 4 * usize::from(nodes), nodes - 1);
    }
}
