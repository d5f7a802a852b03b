// The scripts of the runs, their words and the lines of their outputs.

/// A table and its stream.
pub const TABLE: &str =
    "{\"at\":\"2024-05-01T00:00:00Z\",\"ddl\":\"CREATE TABLE T (K INT64 NOT NULL, A INT64, B STRING(MAX)) PRIMARY KEY (K)\"}\n{\"at\":\"2024-05-01T00:00:00Z\",\"ddl\":\"CREATE CHANGE STREAM S FOR T\"}\n";

/// The same, and an insert.
pub const INSERT: &str =
    "{\"at\":\"2024-05-01T00:00:00Z\",\"ddl\":\"CREATE TABLE T (K INT64 NOT NULL, A INT64, B STRING(MAX)) PRIMARY KEY (K)\"}\n{\"at\":\"2024-05-01T00:00:00Z\",\"ddl\":\"CREATE CHANGE STREAM S FOR T\"}\n{\"at\":\"2024-05-01T00:00:01Z\",\"commit\":{\"id\":\"t1\",\"writes\":[{\"insert\":\"T\",\"key\":{\"K\":\"1\"},\"set\":{\"A\":\"5\",\"B\":\"x\"}}]}}\n";

/// A table and its stream, whose partition is split at the second second, and whole from the sixth on.
pub const MERGE: &str =
    "{\"at\":\"2024-05-01T00:00:00Z\",\"ddl\":\"CREATE TABLE T (K INT64 NOT NULL, A INT64, B STRING(MAX)) PRIMARY KEY (K)\"}\n{\"at\":\"2024-05-01T00:00:00Z\",\"ddl\":\"CREATE CHANGE STREAM S FOR T\"}\n{\"at\":\"2024-05-01T00:00:02Z\",\"reshape\":{\"borders\":[{\"key\":{\"K\":\"100\"},\"table\":\"T\"}],\"parts\":[\"S-00000\"],\"stream\":\"S\"}}\n{\"at\":\"2024-05-01T00:00:06Z\",\"reshape\":{\"borders\":[],\"parts\":[\"S-00001\",\"S-00002\"],\"stream\":\"S\"}}\n";

/// The line of the insert in an output.
pub const CHANGE: &str =
    "{\"key\":{\"K\":\"1\"},\"kind\":\"INSERT\",\"new\":{\"A\":\"5\",\"B\":\"x\"},\"old\":{},\"stamp\":\"2024-05-01T00:00:01Z\",\"table\":\"T\",\"tx\":\"t1\"}\n";

/// The replay of the insert's second.
pub const ONE: &str = "replay a b c S 2024-05-01T00:00:01Z 2024-05-01T00:00:01Z";

/// What it tells: its journal has 154 bytes.
pub const ENDED: &str =
    "0|0 Ended\n|154|{\"key\":{\"K\":\"1\"},\"kind\":\"INSERT\",\"new\":{\"A\":\"5\",\"B\":\"x\"},\"old\":{},\"stamp\":\"2024-05-01T00:00:01Z\",\"table\":\"T\",\"tx\":\"t1\"}\n{\"watermark\":\"2024-05-01T00:00:01Z\"}\n|";
