//! The columns of each table: those of its key and then the others, each with its number, its name and its type. All
//! texts of statements that name the columns follow from these lists: `source_columns!(create_text)` is the text that
//! creates the table of sources, and `source_columns!(select_text "ORDER BY id, name")` the one that asks for its rows.
//! A table refers to another one by its first column.

/// The columns of the table of the schema's number.
#[macro_export]
macro_rules! meta_columns {
    ($text:ident $($which:literal)?) => {
        $crate::$text!(
            "meta"
            [
                1 "k" "TEXT NOT NULL",
            ]
            [
                2 "v" "INTEGER NOT NULL",
            ]
            ()
            $($which)?
        )
    };
}

/// The columns of the table of received SYSMODs.
#[macro_export]
macro_rules! sysmod_columns {
    ($text:ident $($which:literal)?) => {
        $crate::$text!(
            "sysmod"
            [
                1 "id" "TEXT NOT NULL",
            ]
            [
                2 "kind" "TEXT NOT NULL",
                3 "sources" "TEXT NOT NULL",
            ]
            ()
            $($which)?
        )
    };
}

/// The columns of the table of the first `++VER` of each SREL of a SYSMOD.
#[macro_export]
macro_rules! ver_columns {
    ($text:ident $($which:literal)?) => {
        $crate::$text!(
            "ver"
            [
                1 "id" "TEXT NOT NULL",
                2 "srel" "TEXT NOT NULL",
            ]
            [
                3 "fmid" "TEXT",
                4 "pre" "TEXT NOT NULL",
                5 "req" "TEXT NOT NULL",
                6 "sup" "TEXT NOT NULL",
                7 "npre" "TEXT NOT NULL",
                8 "del" "TEXT NOT NULL",
            ]
            ("sysmod (id) ON DELETE CASCADE")
            $($which)?
        )
    };
}

/// The columns of the table of the `++IF`s of these.
#[macro_export]
macro_rules! ifreq_columns {
    ($text:ident $($which:literal)?) => {
        $crate::$text!(
            "ifreq"
            [
                1 "id" "TEXT NOT NULL",
                2 "srel" "TEXT NOT NULL",
                3 "n" "INTEGER NOT NULL",
            ]
            [
                4 "fmid" "TEXT NOT NULL",
                5 "req" "TEXT NOT NULL",
            ]
            ("sysmod (id) ON DELETE CASCADE")
            $($which)?
        )
    };
}

/// The columns of the table of holds.
#[macro_export]
macro_rules! hold_columns {
    ($text:ident $($which:literal)?) => {
        $crate::$text!(
            "hold"
            [
                1 "id" "TEXT NOT NULL",
                2 "kind" "TEXT NOT NULL",
                3 "reason" "TEXT NOT NULL",
            ]
            [
                4 "fmid" "TEXT NOT NULL",
                5 "class" "TEXT",
                6 "date" "TEXT",
                7 "comment" "TEXT",
                8 "internal" "INTEGER NOT NULL",
            ]
            ()
            $($which)?
        )
    };
}

/// The columns of the table of the element statements of SYSMODs.
#[macro_export]
macro_rules! elem_columns {
    ($text:ident $($which:literal)?) => {
        $crate::$text!(
            "elem"
            [
                1 "id" "TEXT NOT NULL",
                2 "type" "TEXT NOT NULL",
                3 "name" "TEXT NOT NULL",
            ]
            [
                4 "upd" "INTEGER NOT NULL",
                5 "distlib" "TEXT",
                6 "syslib" "TEXT",
                7 "text" "BLOB NOT NULL",
            ]
            ("sysmod (id) ON DELETE CASCADE")
            $($which)?
        )
    };
}

/// The columns of the table of target and distribution zones.
#[macro_export]
macro_rules! zone_columns {
    ($text:ident $($which:literal)?) => {
        $crate::$text!(
            "zone"
            [
                1 "name" "TEXT NOT NULL",
            ]
            [
                2 "kind" "TEXT NOT NULL",
                3 "srel" "TEXT NOT NULL",
                4 "related" "TEXT",
            ]
            ()
            $($which)?
        )
    };
}

/// The columns of the table of the SYSMOD entries of zones.
#[macro_export]
macro_rules! entry_columns {
    ($text:ident $($which:literal)?) => {
        $crate::$text!(
            "entry"
            [
                1 "zone" "TEXT NOT NULL",
                2 "id" "TEXT NOT NULL",
            ]
            [
                3 "date" "TEXT",
                4 "supby" "TEXT NOT NULL",
                5 "delby" "TEXT",
                6 "waived" "TEXT NOT NULL",
            ]
            ("zone (name)")
            $($which)?
        )
    };
}

/// The columns of the table of the element entries of zones.
#[macro_export]
macro_rules! zelem_columns {
    ($text:ident $($which:literal)?) => {
        $crate::$text!(
            "zelem"
            [
                1 "zone" "TEXT NOT NULL",
                2 "type" "TEXT NOT NULL",
                3 "name" "TEXT NOT NULL",
            ]
            [
                4 "fmid" "TEXT NOT NULL",
                5 "rmid" "TEXT NOT NULL",
                6 "umid" "TEXT NOT NULL",
                7 "distlib" "TEXT NOT NULL",
                8 "syslib" "TEXT NOT NULL",
                9 "text" "BLOB NOT NULL",
            ]
            ("zone (name)")
            $($which)?
        )
    };
}

/// The columns of the table of the sources of SYSMODs.
#[macro_export]
macro_rules! source_columns {
    ($text:ident $($which:literal)?) => {
        $crate::$text!(
            "source"
            [
                1 "id" "TEXT NOT NULL",
                2 "name" "TEXT NOT NULL",
            ]
            []
            ("sysmod (id) ON DELETE CASCADE")
            $($which)?
        )
    };
}

/// The columns of the table of the further `++VER`s of one SREL.
#[macro_export]
macro_rules! morever_columns {
    ($text:ident $($which:literal)?) => {
        $crate::$text!(
            "morever"
            [
                1 "id" "TEXT NOT NULL",
                2 "srel" "TEXT NOT NULL",
                3 "n" "INTEGER NOT NULL",
            ]
            [
                4 "fmid" "TEXT",
                5 "pre" "TEXT NOT NULL",
                6 "req" "TEXT NOT NULL",
                7 "sup" "TEXT NOT NULL",
            ]
            ("sysmod (id) ON DELETE CASCADE")
            $($which)?
        )
    };
}

/// The columns of the table of the `++IF`s of these.
#[macro_export]
macro_rules! moreif_columns {
    ($text:ident $($which:literal)?) => {
        $crate::$text!(
            "moreif"
            [
                1 "id" "TEXT NOT NULL",
                2 "srel" "TEXT NOT NULL",
                3 "v" "INTEGER NOT NULL",
                4 "n" "INTEGER NOT NULL",
            ]
            [
                5 "fmid" "TEXT NOT NULL",
                6 "req" "TEXT NOT NULL",
            ]
            ("sysmod (id) ON DELETE CASCADE")
            $($which)?
        )
    };
}

/// The columns of the table of the `++VER`s that installed entries.
#[macro_export]
macro_rules! chosen_columns {
    ($text:ident $($which:literal)?) => {
        $crate::$text!(
            "chosen"
            [
                1 "zone" "TEXT NOT NULL",
                2 "id" "TEXT NOT NULL",
            ]
            [
                3 "n" "INTEGER NOT NULL",
            ]
            ("zone (name)")
            $($which)?
        )
    };
}
