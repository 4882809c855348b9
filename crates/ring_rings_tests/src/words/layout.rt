//! What lies in a ring: headers, places, words and bytes.
use crate::compare::same;
use ring_layout::{
    Admission, aborted_header, align8, byte_index, committed_header, first_word, fits,
    get_byte_word, has_room, is_capacity, is_length, is_position, is_type_id, max_message,
    open_header, pack_header, pad_and_span, padding_header, place_record, put_bytes_word, put_part,
    put_word, span, unpack_header, word_depends_on_one_claim, word_index,
};

#[test]
fn rounds_up_to_eight(rt: HostRuntime) {
    same(&rt, [align8(13), align8(16), align8(0)], [16, 16, 0]);
}

#[test]
fn packs_length_and_type_id(rt: HostRuntime) {
    same(&rt, pack_header(13, 7), 0x0000_0007_0000_000D);
    same(&rt, pack_header(-8, 1), 0x0000_0001_FFFF_FFF8);
    same(&rt, unpack_header(0x0000_0001_FFFF_FFF8), (-8, 1));
    same(&rt, unpack_header(0xFFFF_FFFF_0000_0010), (16, -1));
}

#[test]
fn makes_the_four_headers_of_a_record(rt: HostRuntime) {
    let made = [
        open_header(7, 5),
        committed_header(7, 5),
        aborted_header(5),
        padding_header(16),
    ];
    let wanted = [
        0x0000_0007_FFFF_FFF3,
        0x0000_0007_0000_000D,
        0xFFFF_FFFF_0000_000D,
        0xFFFF_FFFF_0000_0010,
    ];
    same(&rt, made, wanted);
}

#[test]
fn pads_to_the_end_of_the_buffer(rt: HostRuntime) {
    let capacity = 128;
    assert!(rt; is_capacity(capacity));
    same(&rt, pad_and_span(capacity, 112, 16), (16, 24));
    same(&rt, pad_and_span(capacity, 104, 16), (0, 24));
}

#[test]
fn admits_what_fits(rt: HostRuntime) {
    let capacity = 128;
    assert!(rt; is_capacity(capacity));
    let tested = [
        is_capacity(100),
        fits(capacity, 120, 0, 16),
        fits(capacity, 120, 0, 0),
    ];
    same(&rt, tested, [false, false, true]);
    same(&rt, max_message(capacity), 16);
    word_depends_on_one_claim();
}

#[test]
fn puts_bytes_into_a_word(rt: HostRuntime) {
    let word = put_bytes_word(0, 3, &[0xAA, 0xBB]);
    let found = [word, u64::from(get_byte_word(word, 4))];
    same(&rt, found, [0x0000_00BB_AA00_0000, 0xBB]);
}

#[test]
fn wraps_positions(rt: HostRuntime) {
    let capacity = 128;
    assert!(rt; is_capacity(capacity));
    same(&rt, byte_index(capacity, 296), 40);
    same(&rt, word_index(capacity, 296), 5);
    same(&rt, word_index(capacity, 256), 0);
    same(&rt, word_index(capacity, 120), 15);
}

#[test]
fn writes_words_over_bytes(rt: HostRuntime) {
    let mut bytes = [9; 11];
    put_word(&mut bytes, 1, 0x0807_0605_0403_0201);
    same(&rt, bytes, [9, 1, 2, 3, 4, 5, 6, 7, 8, 9, 9]);
    put_part(&mut bytes, 9, 0x0807_0605_0403_0201);
    same(&rt, bytes, [9, 1, 2, 3, 4, 5, 6, 7, 8, 1, 2]);
    put_part(&mut bytes, 3, 0);
    same(&rt, bytes, [9, 1, 2, 0, 0, 0, 0, 0, 0, 0, 0]);
    same(&rt, first_word(&bytes), 0x0002_0109);
    same(&rt, first_word(&bytes[..2]), 0x0109);
}

#[test]
fn places_a_record_behind_padding(rt: HostRuntime) {
    let capacity = 128;
    assert!(rt; is_capacity(capacity));
    let padded = Admission {
        tail: 112,
        place: 128,
        end: 152,
    };
    let fitting = Admission {
        tail: 104,
        place: 104,
        end: 128,
    };
    same(&rt, place_record(capacity, 112, 16), padded);
    same(&rt, place_record(capacity, 104, 16), fitting);
}

#[test]
fn tests_a_request(rt: HostRuntime) {
    let lengths = [is_length(128, 16), is_length(128, 17)];
    same(
        &rt,
        [is_type_id(0), is_type_id(1), is_type_id(-1)],
        [false, true, false],
    );
    same(&rt, lengths, [true, false]);
}

#[test]
fn tests_where_a_record_ends(rt: HostRuntime) {
    let positions = [is_position(1 << 62), is_position((1 << 62) + 8)];
    let rooms = [has_room(128, 152, 24), has_room(128, 152, 16)];
    same(&rt, positions, [true, false]);
    same(&rt, rooms, [true, false]);
}

#[test]
fn a_span_has_the_header_and_whole_words(rt: HostRuntime) {
    // The last one is of the longest command.
    let spans = [span(0), span(1), span(8), span(9), span(520)];
    same(&rt, spans, [8, 16, 16, 24, 528]);
}
