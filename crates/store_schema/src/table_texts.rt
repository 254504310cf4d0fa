//! The texts of a table's statements. Each follows from the one list of the table's columns in `table_columns`: the
//! table's name, the columns of its key and then the others, each with its number, name and type, and what its first
//! column refers to.

/// The statement that creates the table.
#[macro_export]
macro_rules! create_text {
    ($table:literal [$n:literal $key:literal $key_type:literal $(, $ns:literal $keys:literal $key_types:literal)* $(,)?]
        [$($m:literal $column:literal $type:literal),* $(,)?] ($($reference:literal)?)) => {
        concat!("CREATE TABLE ", $table, " (", $key, " ", $key_type, ", ", $($keys, " ", $key_types, ", ",)*
            $($column, " ", $type, ", ",)* "PRIMARY KEY (", $key $(, ", ", $keys)*, ")"
            $(, ", FOREIGN KEY (", $key, ") REFERENCES ", $reference)?, ") STRICT")
    };
}

/// The query for all columns of the rows that `$which` says, in its order.
#[macro_export]
macro_rules! select_text {
    ($table:literal [$n:literal $key:literal $key_type:literal $(, $ns:literal $keys:literal $key_types:literal)* $(,)?]
        [$($m:literal $column:literal $type:literal),* $(,)?] ($($reference:literal)?) $which:literal) => {
        concat!("SELECT ", $key $(, ", ", $keys)* $(, ", ", $column)*, " FROM ", $table, " ", $which)
    };
}

/// The statement that adds a row.
#[macro_export]
macro_rules! insert_text {
    ($table:literal [$n:literal $key:literal $key_type:literal $(, $ns:literal $keys:literal $key_types:literal)* $(,)?]
        [$($m:literal $column:literal $type:literal),* $(,)?] ($($reference:literal)?)) => {
        concat!("INSERT INTO ", $table, " (", $key $(, ", ", $keys)* $(, ", ", $column)*,
            ") VALUES (?", $n $(, ", ?", $ns)* $(, ", ?", $m)*, ")")
    };
}

/// The statement that adds sixteen rows, as many as one statement adds.
#[macro_export]
macro_rules! insert_many_text {
    ($table:literal [$n:literal $key:literal $key_type:literal $(, $ns:literal $keys:literal $key_types:literal)* $(,)?]
        [$($m:literal $column:literal $type:literal),* $(,)?] ($($reference:literal)?)) => {
        $crate::insert_many_text!(@ ("INSERT INTO " $table " (" $key $(", " $keys)* $(", " $column)* ") VALUES ")
            () ($($ns)* $($m)*))
    };
    (@ $front:tt ($($place:literal)*) ($number:literal $($numbers:literal)*)) => {
        $crate::insert_many_text!(@ $front ($($place)* ", ?") ($($numbers)*))
    };
    (@ ($($front:literal)*) ($($place:literal)*) ()) => {
        concat!($($front,)* "(?", $($place,)* "), (?", $($place,)* "), (?", $($place,)* "), (?", $($place,)*
            "), (?", $($place,)* "), (?", $($place,)* "), (?", $($place,)* "), (?", $($place,)*
            "), (?", $($place,)* "), (?", $($place,)* "), (?", $($place,)* "), (?", $($place,)*
            "), (?", $($place,)* "), (?", $($place,)* "), (?", $($place,)* "), (?", $($place,)* ")")
    };
}

/// The statement that adds a row, or puts it in place of the one of its key.
#[macro_export]
macro_rules! upsert_text {
    ($table:literal [$n:literal $key:literal $key_type:literal $(, $ns:literal $keys:literal $key_types:literal)* $(,)?]
        [$m:literal $column:literal $type:literal $(, $ms:literal $columns:literal $types:literal)* $(,)?]
        ($($reference:literal)?)) => {
        concat!("INSERT INTO ", $table, " (", $key $(, ", ", $keys)*, ", ", $column $(, ", ", $columns)*,
            ") VALUES (?", $n $(, ", ?", $ns)*, ", ?", $m $(, ", ?", $ms)*,
            ") ON CONFLICT (", $key $(, ", ", $keys)*, ") DO UPDATE SET ", $column, " = excluded.", $column
            $(, ", ", $columns, " = excluded.", $columns)*)
    };
}
